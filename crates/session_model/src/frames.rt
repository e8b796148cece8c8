//! The frames of sources, as one reads them: an object that tells them and counts its faults.
ghost use Rattle.std.specs.Prelude.{◌≡◌, ℕ, ◌%◌, ◌<◌, ℤ, List, length, slice_index, All, OnOk};
ghost use Rattle.ses_io.specs.Faults.{HasCause};
ghost use Rattle.session_model.specs.Frames.{FramesOutside, sounds_of, interleaved, IsSample};

use ses_io::Failed;

/// Sources whose frames can be read. Samples are at 24-bit scale.
pub trait Frames: Drop {
    /// What they tell: whether their frames are known, channels and frames of each, and how many calls failed.
    ghost outside: { FramesOutside Self };

    /// What a reader holds beside that and leaves alone: where it borrows, the names of what it borrows, and what those hold.
    ghost Rest: { Type 0 };

    /// That of one reader.
    ghost rest: { Self → Rest };

    /// Fills `out`, which holds whole frames, with the frames of a source from frame `from` on,
    /// and with 0 past the source's end. After Failed the content of `out` isn't said.
    fn frames(&mut self, source: u32, from: u64, out: &mut [i32]) -> Result<(), Failed>
        requires source { source < length (outside.channels self.old) }
        requires whole { length out.old % slice_index (outside.channels self.old) source ≡ 0 }
        ensures told { outside.tells self.old → OnOk result (out.new ≡ interleaved
            (sounds_of (outside.frames self.old) source)
            (slice_index (outside.channels self.old) source)
            from (length out.new)) }
        ensures range { OnOk result (All IsSample out.new) }
        ensures channels { outside.channels self.new ≡ outside.channels self.old }
        ensures kept { outside.tells self.old → outside.frames self.new ≡ outside.frames self.old }
        ensures tells { outside.tells self.old → outside.tells self.new }
        ensures rest { rest self.new ≡ rest self.old }
        ensures cause { HasCause (outside.faults self.old) (outside.faults self.new) result };
}
