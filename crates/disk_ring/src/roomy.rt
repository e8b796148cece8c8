//! What a ring asks of its items: each tells its room.
ghost use Rattle.std.specs.Prelude.{◌≡◌, ℕ};

/// An item whose box can be filled again: its room says how much it holds.
pub trait Roomy {
    ghost room_of: { Self → ℕ };

    /// How much it has room for, as the number of its samples; 0 where nothing is counted.
    fn room(&self) -> u32
        ensures { result ≡ room_of self.now };
}
