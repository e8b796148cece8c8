//! What an entry says that the transport did.
ghost use Rattle.std.specs.Prelude.{◌≡◌};
ghost use Rattle.engine_model.specs.Journal as engine;
ghost use Rattle.engine_model.specs.Fits.{fits_state};
ghost use Rattle.cycle_journal.specs.JournalView.{seen_state};

use cycle_journal::State;
use locate_loop::Transport;

/// Whether it fits the transport of the entry's edition, in a session of so many tracks, behind so many blocks of the
/// generation.
pub(crate) fn fits(transport: &Transport, tracks: u32, rolled: u32, state: State) -> bool
    ensures { let t = transport.now in
        result ≡ fits_state t.rolling tracks t.generation rolled (seen_state state) }
{
    match state {
        State::Stopped => !transport.rolling,
        State::Seeking { track, .. } => transport.rolling && rolled == 0 && track < tracks,
        State::Rolling { generation, seq } => {
            transport.rolling && generation == transport.generation && seq == rolled
        }
    }
}

/// Whether it played a block.
pub(crate) fn is_rolling(state: State) -> bool
    ensures { result ≡ engine.is_rolling (seen_state state) }
{
    match state {
        State::Rolling { .. } => true,
        State::Stopped | State::Seeking { .. } => false,
    }
}
