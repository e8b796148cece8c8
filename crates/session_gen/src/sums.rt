//! The samples of a master's file, added up.
ghost use Rattle.std.specs.Prelude.{◌≡◌, ◌≤◌, length};
ghost use Rattle.sound_model.specs.Numbers.{number, signed};
ghost use Rattle.session_gen.specs.Sums.{IsSumOf, total, pair_numbers};

// The bytes of a header.
const HEADER: usize = 44;

// The sample of a pair of bytes.
fn sample(pair: [u8; 2]) -> i16
    ensures { result ≡ signed 16 (number 2 pair) }
{
    i16::from_le_bytes(pair)
}

// The samples of these pairs of bytes, added up.
fn sum_of_pairs(pairs: &[[u8; 2]]) -> i128
    ensures { result ≡ total (pair_numbers pairs.now) }
{
    let mut sum = 0;
    for pair in pairs {
        sum += i128::from(sample(*pair));
    }
    sum
}

/// The samples of a file of 16 bits, added up.
pub(crate) fn sum_of_file(bytes: &[u8]) -> i128
    requires { 44 ≤ length bytes.now }
    ensures { IsSumOf bytes.now result }
{
    let (pairs, _) = bytes[HEADER..].as_chunks::<2>();
    sum_of_pairs(pairs)
}
