//! What is had of one track, and what is read from.
ghost use Rattle.std.specs.Prelude.{◌≡◌, ◌<◌, true, false, length, None, IsSome};
ghost use Rattle.read_ahead.specs.SendProgress.{needs_of, now_due, target_of};

use crate::pass::Pass;
use crate::progress::SendProgress;
use crate::target::TrackTarget;
use audio_source::Sources;
use piece_item::Item;
use playlist_layers::Scratch;
use ses_io::Media;
use std::marker::Model;

/// What is had of one track: how far ahead it is, and a box to be filled, which is taken out only within a call.
#[derive(Drop)]
pub struct TrackSupply {
    pub(crate) progress: SendProgress,
    pub(crate) spare: Option<Box<Item>>,
    /// Whether the box holds an item that was made and found no room.
    pub(crate) made: bool,
}

impl TrackSupply {
    /// Whether nothing is due of the track.
    pub(crate) fn has_nothing_due(&self, pass: &Pass, track: u32) -> bool
        requires { track < length pass.now.edition.session.tracks.items }
        ensures none { result ≡ true
            → now_due (needs_of (target_of pass.now track)) self.now.progress ≡ None }
        ensures some { result ≡ false
            → IsSome (now_due (needs_of (target_of pass.now track)) self.now.progress) }
    {
        self.progress.step(&TrackTarget::of(pass, track)).is_none()
    }
}

/// What samples are read from, and the memory that this takes.
#[derive(Drop)]
pub struct SourceReader<M: Media> {
    /// The media with the files of the sources.
    pub media: M,
    /// The sources of the session.
    pub sources: Sources,
    /// With room for a block.
    pub scratch: Scratch,
}

impl<M: Media> Model for SourceReader<M> {
    ghost use Rattle.read_ahead.specs.Reader.{ReaderState};

    ghost Value = { ReaderState M };

    ghost view = { λ r. record { media = r.media; sources = r.sources; room = r.scratch } };
}
