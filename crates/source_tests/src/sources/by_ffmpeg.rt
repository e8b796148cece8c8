//! Files that ffmpeg 5.1.9 wrote, of 8, 16 and 24 bits, heard as its own raw output has their samples. Lists and broadcast
//! chunks stand before their data, and two have data of odd size. Those of 24 bits are extensible.
use super::{Case, Want};

/// Files whose first source is heard.
pub(super) const BY_FFMPEG: &[Case] = &[
    Case {
        parts: &[
            b"RIFF\\\0\0\0WAVE",
            b"fmt \x10\0\0\0\x01\0\x01\0\x80\xbb\0\0\x80\xbb\0\0\x01\0\x08\0",
            b"LIST*\0\0\0INFOINAM\x08\0\0\0odd one\0ISFT\x0e\0\0\0Lavf59.27.100\0",
            b"data\x05\0\0\0\0\x7f\x80\x92\xd9\0",
        ],
        files: &[("a.wav", 1)],
        rate: 48_000,
        want: Want::Heard(0, [-8_388_608, -65_536, 0, 1_179_648, 5_832_704, 0]),
    },
    Case {
        parts: &[
            b"RIFFL\0\0\0WAVE",
            b"fmt \x10\0\0\0\x01\0\x02\0\x80\xbb\0\0\0w\x01\0\x02\0\x08\0",
            b"LIST\x1a\0\0\0INFOISFT\x0e\0\0\0Lavf59.27.100\0",
            b"data\x06\0\0\0\0\x7f\x80\x92\xd9\xff",
        ],
        files: &[("a.wav", 2)],
        rate: 48_000,
        want: Want::Heard(0, [-8_388_608, -65_536, 0, 1_179_648, 5_832_704, 8_323_072]),
    },
    Case {
        parts: &[
            b"RIFF\xba\x02\0\0WAVE",
            b"fmt \x10\0\0\0\x01\0\x01\0\x80\xbb\0\0\0w\x01\0\x02\0\x10\0",
            b"bext`\x02\0\0take one",
            &[0; 248],
            b"studio",
            &[0; 76],
            b"\xe0\x01\0\0\0\0\0\0\x01",
            &[0; 255],
            b"A=PCM\0",
            b"LIST\x1a\0\0\0INFOISFT\x0e\0\0\0Lavf59.27.100\0",
            b"data\x0c\0\0\0\0\x80\xf0\xff\0\04\x12hY\xff\x7f",
        ],
        files: &[("a.wav", 1)],
        rate: 48_000,
        want: Want::Heard(0, [-8_388_608, -4_096, 0, 1_192_960, 5_859_328, 8_388_352]),
    },
    Case {
        parts: &[
            b"RIFFb\0\0\0WAVE",
            b"fmt \x10\0\0\0\x01\0\x02\0\x80\xbb\0\0\0\xee\x02\0\x04\0\x10\0",
            b"LIST*\0\0\0INFOINAM\x07\0\0\0stereo\0\0ISFT\x0e\0\0\0Lavf59.27.100\0",
            b"data\x0c\0\0\0\0\x80\xf0\xff\0\04\x12hY\xff\x7f",
        ],
        files: &[("a.wav", 2)],
        rate: 48_000,
        want: Want::Heard(0, [-8_388_608, -4_096, 0, 1_192_960, 5_859_328, 8_388_352]),
    },
    Case {
        parts: &[
            b"RIFF|\0\0\0WAVE",
            b"fmt (\0\0\0\xfe\xff\x01\0\x80\xbb\0\0\x802\x02\0\x03\0\x18\0\x16\0\x18\0\x04\0\0\0\x01\0\0\0\0\0\x10\0\x80\0\0\xaa\08\x9bq",
            b"LIST(\0\0\0INFOICMT\x05\0\0\0five\0\0ISFT\x0e\0\0\0Lavf59.27.100\0",
            b"data\x0f\0\0\0\0\0\x80\xbe\xf0\xff\x0b\0\0V4\x12/hY\0",
        ],
        files: &[("a.wav", 1)],
        rate: 48_000,
        want: Want::Heard(0, [-8_388_608, -3_906, 11, 1_193_046, 5_859_375, 0]),
    },
    Case {
        parts: &[
            b"RIFF\xd2\x02\0\0WAVE",
            b"fmt (\0\0\0\xfe\xff\x02\0\x80\xbb\0\0\0e\x04\0\x06\0\x18\0\x16\0\x18\0\x03\0\0\0\x01\0\0\0\0\0\x10\0\x80\0\0\xaa\08\x9bq",
            b"bextZ\x02\0\0take two",
            &[0; 338],
            b"\x01",
            &[0; 255],
            b"LIST\x1a\0\0\0INFOISFT\x0e\0\0\0Lavf59.27.100\0",
            b"data\x12\0\0\0\0\0\x80\xbe\xf0\xff\x0b\0\0V4\x12/hY\xff\xff\x7f",
        ],
        files: &[("a.wav", 2)],
        rate: 48_000,
        want: Want::Heard(0, [-8_388_608, -3_906, 11, 1_193_046, 5_859_375, 8_388_607]),
    },
];
