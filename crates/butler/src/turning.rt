//! What a turn answers.
ghost use Rattle.std.specs.Prelude.{◌≡◌, ◌≤◌};
ghost use Rattle.butler.specs.declared.turning.Turn.TheVariants.{Moved, Idle};

/// What a turn did.
#[derive(Clone, Copy, Debug, PartialEq, Eq)]
pub enum Turn {
    /// So many items were sent or blocks flushed, at least one.
    Moved(u32),
    /// Nothing was to flush or to send, or no ring had room.
    Idle,
}

/// A turn that sent and flushed so many in all.
pub(crate) fn turn_of(moved: u32) -> Turn
    ensures idle { moved ≡ 0 → result ≡ Idle }
    ensures moved { 1 ≤ moved → result ≡ Moved moved }
{
    if moved == 0 {
        Turn::Idle
    } else {
        Turn::Moved(moved)
    }
}
