//! Laws of what a window shows and of what it takes in.
ghost use Rattle.play_window.specs.Laws.{UnheldItemsAreTakenIn, WindowsShowTheNewest};

/// What a window shows of a block that isn't passed is what was received: the newest piece, or none.
#[tactic(auto, using(crate::proofs::ShowLemmas::windows_show_the_newest))]
pub fn windows_show_the_newest()
    ensures { WindowsShowTheNewest }
{}

/// The items that may be offered and are taken in are those that a process doesn't hold.
#[tactic(auto, using(crate::proofs::ShowLemmas::unheld_items_are_taken_in))]
pub fn unheld_items_are_taken_in()
    ensures { UnheldItemsAreTakenIn }
{}
