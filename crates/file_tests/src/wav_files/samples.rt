//! Samples of whole files, read and written again.

use super::mono;
use ses_units::Bits;
use wav_codec::{WavForm, decode, encode, header};

// Eight mono frames of 16 bits, 100 to 800: 44 bytes of head and 16 of sound.
pub(crate) const BASE: [u8; 60] = *b"RIFF\x34\0\0\0WAVE\
    fmt \x10\0\0\0\x01\0\x01\0\x80\xbb\0\0\0\x77\x01\0\x02\0\x10\0\
    data\x10\0\0\0\x64\0\xc8\0\x2c\x01\x90\x01\xf4\x01\x58\x02\xbc\x02\x20\x03";

// Four mono frames of 8 bits.
pub(super) const EIGHT: [u8; 48] = *b"RIFF\x28\0\0\0WAVE\
    fmt \x10\0\0\0\x01\0\x01\0\x80\xbb\0\0\x80\xbb\0\0\x01\0\x08\0data\x04\0\0\0\x80\x81\x7f\xff";

// Three mono frames of 24 bits, and a pad byte.
pub(super) const TWENTY_FOUR: [u8; 54] = *b"RIFF\x2e\0\0\0WAVE\
    fmt \x10\0\0\0\x01\0\x01\0\x80\xbb\0\0\x80\x32\x02\0\x03\0\x18\0\
    data\x09\0\0\0\0\x64\0\0\x9c\xff\0\0\x80\0";

const FORM_16: WavForm = WavForm {
    channels: 1,
    rate: 48_000,
    bits: Bits::B16,
};

const FORM_24: WavForm = WavForm {
    channels: 1,
    rate: 48_000,
    bits: Bits::B24,
};

#[test]
fn eight_bits_are_read_and_written_as_sixteen(rt: HostRuntime) {
    let mut samples = [0; 4];
    decode(&mono(8, 44, 4), &EIGHT[44..48], &mut samples);
    assert!(rt; samples == [0, 65_536, -65_536, 8_323_072]);
    let mut bytes = [0; 8];
    encode(&samples, Bits::B16, &mut bytes);
    assert!(rt; bytes == *b"\0\0\0\x01\0\xff\0\x7f");
}

#[test]
fn sixteen_bits_come_back(rt: HostRuntime) {
    let mut samples = [0; 8];
    decode(&mono(16, 44, 8), &BASE[44..], &mut samples);
    assert!(rt;
        samples
            == [
                25_600, 51_200, 76_800, 102_400, 128_000, 153_600, 179_200, 204_800
            ]
    );
    let mut bytes = [0; 16];
    encode(&samples, Bits::B16, &mut bytes);
    assert!(rt; bytes.as_slice() == &BASE[44..]);
    assert!(rt; header(&FORM_16, 8).as_slice() == &BASE[..44]);
}

#[test]
fn twenty_four_bits_come_back_with_a_pad_byte(rt: HostRuntime) {
    let mut samples = [0; 3];
    decode(&mono(24, 44, 3), &TWENTY_FOUR[44..53], &mut samples);
    assert!(rt; samples == [25_600, -25_600, -8_388_608]);
    let mut bytes = [0; 9];
    encode(&samples, Bits::B24, &mut bytes);
    assert!(rt; bytes.as_slice() == &TWENTY_FOUR[44..53]);
    assert!(rt; header(&FORM_24, 3).as_slice() == &TWENTY_FOUR[..44]);
}

#[test]
fn samples_are_floored_and_bounded(rt: HostRuntime) {
    let samples = [-1, 15_360_000, -15_360_000, 8_388_608, -8_388_609];
    let mut bytes = [0; 10];
    encode(&samples, Bits::B16, &mut bytes);
    assert!(rt; bytes == *b"\xff\xff\xff\x7f\0\x80\xff\x7f\0\x80");
    let mut bytes = [0; 15];
    encode(&samples, Bits::B24, &mut bytes);
    assert!(rt; bytes == *b"\xff\xff\xff\xff\xff\x7f\0\0\x80\xff\xff\x7f\0\0\x80");
}
