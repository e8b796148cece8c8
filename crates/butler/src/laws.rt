//! Laws of butlers, as functions that do nothing and whose contracts are the laws.
ghost use Rattle.butler.specs.Laws.{MeetingKeeps, SourcesAreNoTakes};
ghost use Rattle.butler.specs.Moves.{ATurnOfOneIsOneMove};
ghost use Rattle.butler.specs.CoreMoves.{TheMoveIsTheCoreMachines};

/// A meeting of a butler's ends with the other ends of their rings leaves it serving its session,
/// its boxes fitting, and what is true of files true.
#[tactic(auto, using(crate::proofs::MeetingLemmas::meeting_keeps))]
pub fn meeting_keeps<V>()
    ensures { MeetingKeeps V }
{}

/// The files of sources stand while takes are written, where no file was named as takes are.
pub fn sources_are_no_takes()
    ensures { SourcesAreNoTakes }
{}

/// A turn of at most one item, in which nothing fails, is one flush or one send of the core
/// machine, or none.
pub fn a_turn_of_one_is_one_move<V>()
    ensures { ATurnOfOneIsOneMove V }
{}

/// That move is the core machine's first, in the state that the ends stand for.
pub fn the_move_is_the_core_machines<V>()
    ensures { TheMoveIsTheCoreMachines V }
{}
