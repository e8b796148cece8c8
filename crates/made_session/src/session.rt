//! The session that is made from a number.
ghost use Rattle.std.specs.Prelude.{◌≡◌, ◌≤◌, codes, IfOk};
ghost use Rattle.session_model.specs.Valid.{IsValid};
ghost use Rattle.made_session.specs.Made as spec;

use crate::routes::route_list;
use crate::sources::source_list;
use crate::tracks::track_list;
use ses_io::NoMemory;
use ses_units::{Bits, Name};
use session_model::Session;
use std::alloc::Global;

fn takes_name() -> Name
    ensures { result ≡ codes "take" }
{
    match Name::new("take") {
        Ok(name) => name,
        Err(_) => unreachable!(),
    }
}

/// The session of the number n, 0..8,191: `1 + n mod 32` tracks of `1 + floor(n / 32)` regions each,
/// all of one source of 4,096 frames, into a mono master. Err is want of memory.
#[tactic(auto, using(crate::proofs::ValidLemmas::made_is_valid), unfolding(crate::specs::Made::made_session))]
pub fn made_session(alloc: Global, n: u32) -> Result<Session, NoMemory>
    requires { n ≤ 8191 }
    ensures value { IfOk result (λ s. s ≡ spec.made_session n) }
    ensures valid { IfOk result IsValid }
{
    let sources = source_list(alloc)?;
    let routes = route_list(alloc, n)?;
    let tracks = track_list(alloc, n)?;
    Ok(Session {
        rate: 48_000,
        bits: Bits::B16,
        block: 256,
        depth: 16,
        takes: takes_name(),
        sources,
        routes,
        tracks,
    })
}
