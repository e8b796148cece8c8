//! How many tracks and regions are made from a number.
ghost use Rattle.std.specs.Prelude.{◌≡◌, ◌≤◌};
ghost use Rattle.made_session.specs.Made as spec;

/// How many tracks a session has that is made from this number, 1..32.
pub fn tracks_made(n: u32) -> u32
    ensures tracks { result ≡ spec.tracks n }
    ensures some { 1 ≤ result }
    ensures few { result ≤ 32 }
{
    n % 32 + 1
}

/// How many regions each of its tracks has, 1..256.
pub fn regions_each(n: u32) -> u32
    requires { n ≤ 8191 }
    ensures regions { result ≡ spec.regions n }
    ensures some { 1 ≤ result }
    ensures few { result ≤ 256 }
{
    n / 32 + 1
}
