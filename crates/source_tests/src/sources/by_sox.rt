//! Files that sox 14.4.2 wrote, of 8, 16 and 24 bits, heard as its own raw output has their samples. Those of 24 bits are
//! extensible, and have a chunk `fact`.
use super::{Case, Want};

/// Files whose first source is heard.
pub(super) const BY_SOX: &[Case] = &[
    Case {
        parts: &[
            b"RIFF*\0\0\0WAVE",
            b"fmt \x10\0\0\0\x01\0\x01\0\x80\xbb\0\0\x80\xbb\0\0\x01\0\x08\0",
            b"data\x06\0\0\0",
            b"\0\x80\x80\x92\xd9\xff",
        ],
        files: &[("a.wav", 1)],
        rate: 48_000,
        want: Want::Heard(0, [-8_388_608, 0, 0, 1_179_648, 5_832_704, 8_323_072]),
    },
    Case {
        parts: &[
            b"RIFF*\0\0\0WAVE",
            b"fmt \x10\0\0\0\x01\0\x02\0\x80\xbb\0\0\0w\x01\0\x02\0\x08\0",
            b"data\x06\0\0\0",
            b"\x81\x7f\x87E\xff\0",
        ],
        files: &[("a.wav", 2)],
        rate: 48_000,
        want: Want::Heard(
            0,
            [65_536, -65_536, 458_752, -3_866_624, 8_323_072, -8_388_608],
        ),
    },
    Case {
        parts: &[
            b"RIFF0\0\0\0WAVE",
            b"fmt \x10\0\0\0\x01\0\x01\0\x80\xbb\0\0\0w\x01\0\x02\0\x10\0",
            b"data\x0c\0\0\0",
            b"\0\x80\xf1\xff\0\04\x12hY\xff\x7f",
        ],
        files: &[("a.wav", 1)],
        rate: 48_000,
        want: Want::Heard(0, [-8_388_608, -3_840, 0, 1_192_960, 5_859_328, 8_388_352]),
    },
    Case {
        parts: &[
            b"RIFF0\0\0\0WAVE",
            b"fmt \x10\0\0\0\x01\0\x02\0\x80\xbb\0\0\0\xee\x02\0\x04\0\x10\0",
            b"data\x0c\0\0\0",
            b"\0\x01\0\xff\x5c\x07\x22\xc5\xff\x7f\0\x80",
        ],
        files: &[("a.wav", 2)],
        rate: 48_000,
        want: Want::Heard(
            0,
            [65_536, -65_536, 482_304, -3_857_920, 8_388_352, -8_388_608],
        ),
    },
    Case {
        parts: &[
            b"RIFFZ\0\0\0WAVE",
            b"fmt (\0\0\0\xfe\xff\x01\0\x80\xbb\0\0\x802\x02\0\x03\0\x18\0\x16\0\x18\0\x04\0\0\0\x01\0\0\0\0\0\x10\0\x80\0\0\xaa\08\x9bqfact\x04\0\0\0\x06\0\0\0",
            b"data\x12\0\0\0",
            b"\0\0\x80\xbe\xf0\xff\0\0\0V4\x12/hY\xff\xff\x7f",
        ],
        files: &[("a.wav", 1)],
        rate: 48_000,
        want: Want::Heard(0, [-8_388_608, -3_906, 0, 1_193_046, 5_859_375, 8_388_607]),
    },
    Case {
        parts: &[
            b"RIFFZ\0\0\0WAVE",
            b"fmt (\0\0\0\xfe\xff\x02\0\x80\xbb\0\0\0e\x04\0\x06\0\x18\0\x16\0\x18\0\x03\0\0\0\x01\0\0\0\0\0\x10\0\x80\0\0\xaa\08\x9bqfact\x04\0\0\0\x03\0\0\0",
            b"data\x12\0\0\0",
            b"\0\0\x01\0\0\xff\xcd[\x07\x97!\xc5\xff\xff\x7f\0\0\x80",
        ],
        files: &[("a.wav", 2)],
        rate: 48_000,
        want: Want::Heard(
            0,
            [65_536, -65_536, 482_253, -3_858_025, 8_388_607, -8_388_608],
        ),
    },
];
