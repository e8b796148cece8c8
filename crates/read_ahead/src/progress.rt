//! How far ahead a track is served: five numbers stand for all that was sent of it, and say what is due.
ghost use Rattle.std.specs.Prelude.{◌≡◌, ◌≤◌, IfSome};
ghost use Rattle.std.specs.Option.{option_map};
ghost use Rattle.piece_item.specs.Views.{kind_of};
ghost use Rattle.read_ahead.specs.SendProgress.{needs_of, now_due, entered, advanced};

use crate::target::TrackTarget;
use piece_item::Kind;

/// What the butler keeps of a track in place of what it sent.
#[derive(Clone, Copy, Debug, PartialEq, Eq)]
pub(crate) struct SendProgress {
    /// The generation that is served.
    pub(crate) generation: u32,
    /// The playlist edition that is served.
    pub(crate) touched: u32,
    /// The blocks of the generation below this one have older pieces than that.
    pub(crate) fresh: u32,
    /// One past the farthest block of the generation that was sent.
    pub(crate) far: u32,
    /// One more than the edition of the newest mark, 0 where none was sent.
    pub(crate) mark: u32,
}

impl SendProgress {
    /// That of a track of which nothing was sent.
    pub(crate) fn first(generation: u32, touched: u32) -> SendProgress
        ensures { result ≡ record {
          generation = generation;
          touched = touched;
          fresh = 0;
          far = 0;
          mark = 0;
        } }
    {
        SendProgress {
            generation,
            touched,
            fresh: 0,
            far: 0,
            mark: 0,
        }
    }

    /// The numbers once an edition was entered, with its generation and its playlist edition.
    pub(crate) fn entered(self, generation: u32, touched: u32) -> SendProgress
        ensures { result ≡ entered generation touched self }
    {
        if self.generation != generation {
            return SendProgress {
                mark: self.mark,
                ..SendProgress::first(generation, touched)
            };
        }
        if self.touched != touched {
            return SendProgress {
                touched,
                fresh: self.far,
                ..self
            };
        }
        self
    }

    /// What is due, and the numbers once it was sent.
    pub(crate) fn step(&self, target: &TrackTarget) -> Option<(Kind, SendProgress)>
        requires { target.now.edition ≤ 10000 }
        ensures due { option_map (λ r. kind_of r.0) result
            ≡ now_due (needs_of target.now) self.now }
        ensures then { IfSome result (λ r. r.1 ≡ advanced target.now.next self.now (kind_of r.0)) }
    {
        if target.next < self.fresh {
            let seq = self.fresh - 1;
            return Some((
                target.piece(seq),
                SendProgress {
                    fresh: seq,
                    ..*self
                },
            ));
        }
        let mark = target.edition + 1;
        if self.mark != mark {
            return Some((target.mark(), SendProgress { mark, ..*self }));
        }
        let seq = self.far.max(target.next);
        if seq - target.next < target.depth && seq < target.cycles {
            return Some((
                target.piece(seq),
                SendProgress {
                    far: seq + 1,
                    ..*self
                },
            ));
        }
        None
    }
}
