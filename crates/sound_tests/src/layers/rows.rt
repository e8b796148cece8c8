//! The rows of blocks. Their numbers are those of the worked examples of regions, fades and layers.
use super::{Part, Row};
use ses_units::Shape;

const RAMP: &[i32] = &[100, 200, 300, 400, 500, 600, 700, 800];

const STEADY: &[i32] = &[400; 8];

const LOUD: &[i32] = &[800; 8];

const SIDES: &[i32] = &[
    400, -400, 400, -400, 400, -400, 400, -400, 400, -400, 400, -400, 400, -400, 400, -400,
];

const CLIMB: &[i32] = &[
    100, -1, 200, -2, 300, -3, 400, -4, 500, -5, 600, -6, 700, -7, 800, -8,
];

const SOUNDS: [&[i32]; 3] = [RAMP, STEADY, LOUD];

const PAIRS: [&[i32]; 3] = [CLIMB, SIDES, &[800; 16]];

// Eight frames of the second source, opaque, on layer 1.
const OVER: Part = Part {
    id: 2,
    source: 1,
    start: 0,
    length: 8,
    at: 0,
    layer: 1,
    gain: 65_536,
    opaque: true,
    fade_in: 0,
    shape: Shape::Linear,
};

// Eight frames of the third source, opaque, on layer 0.
const UNDER: Part = Part {
    id: 1,
    source: 2,
    layer: 0,
    ..OVER
};

const WHOLE: Part = Part { source: 0, ..OVER };

const INSIDE: Part = Part {
    start: 2,
    length: 4,
    at: 2,
    ..WHOLE
};

const HALF: Part = Part {
    length: 2,
    gain: 32_768,
    ..WHOLE
};

const FADED: Part = Part { fade_in: 4, ..OVER };

const SLOW: Part = Part {
    shape: Shape::Slow,
    ..FADED
};

const CLEAR: Part = Part {
    opaque: false,
    ..OVER
};

const LATE: Part = Part {
    at: 2,
    length: 4,
    ..OVER
};

const TOP: Part = Part {
    id: 3,
    layer: 2,
    opaque: false,
    ..OVER
};

/// Tracks of one channel.
pub(super) const MONO: &[Row] = &[
    Row {
        name: "no region",
        sounds: SOUNDS,
        parts: &[],
        from: 0,
        want: &[0; 8],
        reads: 0,
    },
    Row {
        name: "a region inside",
        sounds: SOUNDS,
        parts: &[INSIDE],
        from: 0,
        want: &[0, 0, 300, 400, 500, 600, 0, 0],
        reads: 1,
    },
    Row {
        name: "a region's gain rounds down",
        sounds: [&[1, -1], STEADY, LOUD],
        parts: &[HALF],
        from: 0,
        want: &[0, -1, 0, 0, 0, 0, 0, 0],
        reads: 1,
    },
    Row {
        name: "a fade-in",
        sounds: SOUNDS,
        parts: &[FADED],
        from: 0,
        want: &[0, 100, 200, 300, 400, 400, 400, 400],
        reads: 1,
    },
    Row {
        name: "a slow fade-in",
        sounds: SOUNDS,
        parts: &[SLOW],
        from: 0,
        want: &[0, 25, 100, 225, 400, 400, 400, 400],
        reads: 1,
    },
    Row {
        name: "a fade-in from its third frame on",
        sounds: SOUNDS,
        parts: &[FADED],
        from: 2,
        want: &[200, 300, 400, 400, 400, 400, 0, 0],
        reads: 1,
    },
    Row {
        name: "an opaque region fades in over another",
        sounds: SOUNDS,
        parts: &[UNDER, FADED],
        from: 0,
        want: &[800, 700, 600, 500, 400, 400, 400, 400],
        reads: 2,
    },
    Row {
        name: "a transparent region over another",
        sounds: SOUNDS,
        parts: &[UNDER, CLEAR],
        from: 0,
        want: &[1_200; 8],
        reads: 2,
    },
    Row {
        name: "what is hidden isn't read",
        sounds: SOUNDS,
        parts: &[OVER, UNDER],
        from: 0,
        want: &[400; 8],
        reads: 1,
    },
    Row {
        name: "a region that hides another for a while",
        sounds: SOUNDS,
        parts: &[LATE, UNDER],
        from: 0,
        want: &[800, 800, 400, 400, 400, 400, 800, 800],
        reads: 3,
    },
    Row {
        name: "a transparent region over one that hides",
        sounds: SOUNDS,
        parts: &[TOP, UNDER, OVER],
        from: 0,
        want: &[800; 8],
        reads: 2,
    },
    Row {
        name: "on one layer the greater id lies over the lesser",
        sounds: SOUNDS,
        parts: &[Part { layer: 0, ..OVER }, UNDER],
        from: 0,
        want: &[400; 8],
        reads: 1,
    },
    Row {
        name: "past the end of the source",
        sounds: [&[100, 200, 300], STEADY, LOUD],
        parts: &[WHOLE],
        from: 0,
        want: &[100, 200, 300, 0, 0, 0, 0, 0],
        reads: 1,
    },
];

/// Tracks of two channels.
pub(super) const STEREO: &[Row] = &[
    Row {
        name: "a region inside",
        sounds: PAIRS,
        parts: &[INSIDE],
        from: 1,
        want: &[0, 0, 300, -3, 400, -4, 500, -5, 600, -6, 0, 0, 0, 0, 0, 0],
        reads: 1,
    },
    Row {
        name: "a fade-in",
        sounds: PAIRS,
        parts: &[FADED],
        from: 0,
        want: &[
            0, 0, 100, -100, 200, -200, 300, -300, 400, -400, 400, -400, 400, -400, 400, -400,
        ],
        reads: 1,
    },
    Row {
        name: "an opaque region fades in over another",
        sounds: PAIRS,
        parts: &[UNDER, FADED],
        from: 0,
        want: &[
            800, 800, 700, 500, 600, 200, 500, -100, 400, -400, 400, -400, 400, -400, 400, -400,
        ],
        reads: 2,
    },
    Row {
        name: "a transparent region over another",
        sounds: PAIRS,
        parts: &[UNDER, CLEAR],
        from: 0,
        want: &[
            1_200, 400, 1_200, 400, 1_200, 400, 1_200, 400, 1_200, 400, 1_200, 400, 1_200, 400,
            1_200, 400,
        ],
        reads: 2,
    },
];
