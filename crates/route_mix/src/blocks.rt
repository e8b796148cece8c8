//! New blocks for all routes of a session.
ghost use Rattle.std.specs.Prelude.{◌≡◌, map, IfOk};
ghost use Rattle.session_model.specs.Formed.{IsFormed};
ghost use Rattle.route_mix.specs.Blocks.{silence};
ghost use Rattle.route_mix.specs.Desks.{block_sizes};

use crate::sound::Sound;
use crate::sums::Sums;
use ses_io::NoMemory;
use session_model::Session;
use std::alloc::Global;

/// A silent block for each route.
pub(crate) fn new_sounds(alloc: Global, s: &Session) -> Result<Vec<Sound>, NoMemory>
    requires { IsFormed s.now }
    ensures { IfOk result (λ blocks. blocks.items ≡ map silence (block_sizes s.now)) }
{
    let routes = s.routes.as_slice();
    let mut blocks = Vec::new(alloc);
    for route in routes {
        let samples = s.block as usize * route.channels as usize;
        blocks.push(Sound::new(alloc, samples)?)?;
    }
    Ok(blocks)
}

/// Sums of nothing for each route.
pub(crate) fn new_sums(alloc: Global, s: &Session) -> Result<Vec<Sums>, NoMemory>
    requires { IsFormed s.now }
    ensures { IfOk result (λ sums. sums.items ≡ map silence (block_sizes s.now)) }
{
    let routes = s.routes.as_slice();
    let mut sums = Vec::new(alloc);
    for route in routes {
        let samples = s.block as usize * route.channels as usize;
        sums.push(Sums::new(alloc, samples)?)?;
    }
    Ok(sums)
}
