//! Keys of regions.

/// The rows, and how many there are.
pub(crate) const REGION: (&str, usize) = (
    r#"unknown Region 1 1
24:x = 1

missing Region 1 1 Id
20:

kind Region 1 1 Id
20:id = "1"

range Region 1 1 Id
20:id = 0

range Region 1 1 Id
20:id = 1000000

missing Region 1 1 Source
21:

kind Region 1 1 Source
21:source = 1

range Region 1 1 Source
21:source = "A"

kind Region 1 1 Start
24:start = true

range Region 1 1 Start
24:start = -1

range Region 1 1 Start
24:start = 1099511627776

missing Region 1 1 Length
22:

kind Region 1 1 Length
22:length = "8"

range Region 1 1 Length
22:length = 0

range Region 1 1 Length
22:length = 1099511627777

range Region 1 1 Length
22:length = 1099511627776
24:start = 1

ok
22:length = 1099511627775
24:start = 1

missing Region 1 1 At
23:

kind Region 1 1 At
23:at = [0]

range Region 1 1 At
23:at = -1

range Region 1 1 At
23:at = 1099511627769

ok
23:at = 1099511627768

kind Region 1 1 Layer
24:layer = true

range Region 1 1 Layer
24:layer = -1

range Region 1 1 Layer
24:layer = 65536

kind Region 1 1 Gain
24:gain = "1"

range Region 1 1 Gain
24:gain = -1

range Region 1 1 Gain
24:gain = 262145

kind Region 1 1 Opaque
24:opaque = 1

kind Region 1 1 FadeIn
24:fade_in = true

range Region 1 1 FadeIn
24:fade_in = -1

range Region 1 1 FadeIn
24:fade_in = 9

kind Region 1 1 FadeOut
24:fade_out = true

range Region 1 1 FadeOut
24:fade_out = -1

range Region 1 1 FadeOut
24:fade_out = 9

range Region 1 1 FadeOut
24:fade_in = 4|fade_out = 5

ok
24:fade_in = 4|fade_out = 4

unknown Region 1 1
24:shape_in = "slow"

unknown Region 1 1
24:shape_out = "linear"

ok
2:version = 2
24:shape_in = "linear"|shape_out = "slow"

unknown Region 1 1
2:version = 2
24:shape = "slow"

kind Region 1 1 ShapeIn
2:version = 2
24:shape_in = 1|shape_out = 1

range Region 1 1 ShapeIn
2:version = 2
24:shape_in = "fast"

kind Region 1 1 ShapeOut
2:version = 2
24:shape_out = true

range Region 1 1 ShapeOut
2:version = 2
24:shape_out = "Slow"

range Region 1 1 FadeOut
2:version = 2
24:fade_out = 9|shape_in = 1

missing Region 1 2 Id
24:[[track.region]]"#,
    47,
);
