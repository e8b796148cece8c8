//! The next block after a cycle, and what is acknowledged of it.
ghost use Rattle.std.specs.Prelude.{◌≡◌, ◌+◌, ◌<◌, ◌^◌, length};
ghost use Rattle.engine_model.specs.Journal.{is_rolling};
ghost use Rattle.cycle_journal.specs.JournalView.{seen_state};
ghost use Rattle.process_cycle.specs.Cycles.{block_after};

use cycle_journal::{Journal, State};
use piece_item::Ack;

/// Whether a state plays.
pub(crate) fn rolls(state: State) -> bool
    ensures { result ≡ is_rolling (seen_state state) }
{
    match state {
        State::Stopped | State::Seeking { .. } => false,
        State::Rolling { .. } => true,
    }
}

/// The next block after a cycle in a state.
pub(crate) fn block_after(state: State, next: u32) -> u32
    requires { next + 1 < 2 ^ 32 }
    ensures { result ≡ block_after state next }
{
    match state {
        State::Stopped | State::Seeking { .. } => next,
        State::Rolling { .. } => next + 1,
    }
}

/// What is acknowledged after the last entry of a journal.
pub(crate) fn ack_of(journal: &Journal, generation: u32, next: u32, settled: u32) -> Ack
    requires { length journal.now.items < 2 ^ 32 }
    ensures { result ≡ record {
      cycle = length journal.now.items;
      generation = generation;
      next = next;
      settled = settled;
    } }
{
    Ack {
        cycle: journal.entries().len() as u32,
        generation,
        next,
        settled,
    }
}
