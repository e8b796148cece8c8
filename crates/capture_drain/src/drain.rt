//! A drain: the take files of a run, and of each capture ring a box and whether it has ended.
ghost use Rattle.std.specs.Prelude.{◌≡◌, [], ◌++◌, codes, IfOk};
ghost use Rattle.std.specs.List.{list_all};
ghost use Rattle.session_model.specs.Valid.{IsValid};
ghost use Rattle.ses_io.specs.Files.{Files as AllFiles, HasNameUnder};
ghost use Rattle.capture_flush.specs.Flushed.{IsFlushed};
ghost use Rattle.capture_flush.specs.Taking.{IsTakingOf, new_takes};
ghost use Rattle.capture_drain.specs.State.{IsFirst};

use crate::track::TrackDrain;
use capture_flush::TakeFiles;
use piece_item::TakeBlock;
use ses_io::NoMemory;
use session_model::Session;
use std::alloc::Global;
use std::marker::Model;

/// Drains the capture rings of a session's tracks into its take files. Contracts see it as a record of `specs/State.antt`.
#[derive(Drop)]
pub struct CaptureDrain {
    pub(crate) files: TakeFiles,
    pub(crate) tracks: Vec<TrackDrain>,
}

impl Model for CaptureDrain {
    ghost use Rattle.capture_drain.specs.State.{DrainState};

    ghost Value = { DrainState };

    ghost view = { λ d. record { files = d.files; tracks = d.tracks.items } };
}

// Of each track of a session a box of one block.
fn tracks_of(alloc: Global, s: &Session) -> Result<Vec<TrackDrain>, NoMemory>
    requires { IsValid s.now }
    ensures { IfOk result (λ v. IsFirst s.now (record {
      files = new_takes s.now;
      tracks = v.items;
    })) }
{
    let routes = s.routes.as_slice();
    let mut tracks = Vec::new(alloc);
    for t in 0..s.tracks.len() {
        let samples = s.block * u32::from(routes[t].channels);
        let husk = TakeBlock::blank(alloc, samples)?;
        tracks.push(TrackDrain {
            husk: Some(husk),
            ended: false,
        })?;
    }
    Ok(tracks)
}

impl CaptureDrain {
    /// A drain that took nothing yet, with the memory of all its calls.
    pub fn new(alloc: Global, s: &Session) -> Result<CaptureDrain, NoMemory>
        requires { IsValid s.now }
        ensures first { IfOk result (IsFirst s.now) }
        ensures of { IfOk result (λ d. IsTakingOf s.now d.files) }
        ensures nothing { IfOk result (λ d. (held : AllFiles)
            → ¬ (HasNameUnder held (s.now.takes ++ codes "-"))
            → IsFlushed (record { session = s.now; held = held; blocks = λ _. [] }) d.files held) }
    {
        Ok(CaptureDrain {
            files: TakeFiles::new(alloc, s)?,
            tracks: tracks_of(alloc, s)?,
        })
    }

    /// Whether every ring has answered Closed.
    pub fn ended(&self) -> bool
        ensures { result ≡ list_all (λ k. k.ended) self.now.tracks }
    {
        self.tracks.iter().all(|kept| kept.ended)
    }

    /// The take files as they stand.
    pub fn into_files(self) -> TakeFiles
        ensures { result ≡ self.files }
    {
        self.files
    }
}
