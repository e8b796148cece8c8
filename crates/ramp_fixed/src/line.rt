//! A line that rises by a step a frame, with what is left over kept from frame to frame.
ghost use Rattle.std.specs.Prelude.{◌≡◌, ℕ, ◌+◌, ◌^◌, ◌<◌, ◌≤◌};
ghost use Rattle.ramp_fixed.specs.Lines.{IsOnLine, IsSmall};

/// Where a line stands: its value rounded down, and what is left over, in parts of `over`.
#[derive(Clone, Copy)]
pub(crate) struct Line {
    pub(crate) value: u64,
    pub(crate) rest: u64,
    pub(crate) step: u64,
    pub(crate) more: u64,
    pub(crate) over: u64,
}

impl Line {
    // The line that rises by so much over so many frames, `frames` on from `lift` parts.
    pub(crate) fn at(rise: u64, over: u64, lift: u64, frames: u64) -> Line
        requires some { 0 < over }
        requires rise { rise ≤ 2 ^ 18 }
        requires lift { lift ≤ 2 ^ 40 }
        requires frames { frames ≤ 2 ^ 41 }
        ensures line { IsOnLine result rise lift frames }
        ensures over { result.over ≡ over }
    {
        let reached = rise * frames + lift;
        Line {
            value: reached / over,
            rest: reached % over,
            step: rise / over,
            more: rise % over,
            over,
        }
    }

    // The line one frame on.
    pub(crate) fn next(self) -> Line
        requires { IsSmall self }
        ensures line { (rise lift k : ℕ) → IsOnLine self rise lift k
            → IsOnLine result rise lift (k + 1) }
        ensures over { result.over ≡ self.over }
    {
        let value = self.value + self.step;
        let rest = self.rest + self.more;
        if rest < self.over {
            Line {
                value,
                rest,
                ..self
            }
        } else {
            Line {
                value: value + 1,
                rest: rest - self.over,
                ..self
            }
        }
    }
}
