//! The memory that a process takes before its first cycle.
ghost use Rattle.std.specs.Prelude.{◌≡◌, ◌*◌, ◌<◌, ℕ, [], length, slice_get, slice_index_or, IfOk, Some};
ghost use Rattle.session_model.specs.Valid.{IsValid};
ghost use Rattle.track_capture.specs.declared.capture.TrackCapture.{TrackCapture as TrackCaptureRecord};
ghost use Rattle.track_capture.specs.Counted.{Counts, HasBox};
ghost use Rattle.track_playback.specs.declared.playback.TrackPlayback.{TrackPlayback as TrackPlaybackRecord};
ghost use Rattle.track_playback.specs.Played.{IsNewPlayback};
ghost use Rattle.process_ends.specs.Ends.{block_of};

use crate::ack_sender::AckSender;
use cycle_journal::Journal;
use ses_io::{FixedList, NoMemory};
use session_model::Session;
use std::alloc::Global;
use track_capture::TrackCapture;
use track_playback::{TrackPlayback, new_playbacks};

/// What is taken.
#[derive(Drop)]
pub(super) struct Stores {
    pub(super) playbacks: FixedList<TrackPlayback>,
    pub(super) captures: FixedList<TrackCapture>,
    pub(super) journal: Journal,
    pub(super) to_butler: AckSender,
    pub(super) to_control: AckSender,
}

// What is kept of each track's takes, of which nothing was recorded yet.
fn new_captures(alloc: Global, s: &Session) -> Result<Vec<TrackCapture>, NoMemory>
    requires { IsValid s.now }
    ensures count { IfOk result (λ captures. length captures.items ≡ length s.now.tracks.items) }
    ensures each { IfOk result (λ captures. (t : ℕ) (k : TrackCaptureRecord)
        → slice_get captures.items t ≡ Some k → Counts [] t k × HasBox (block_of s.now t) k) }
{
    let mut captures = Vec::new(alloc);
    let routes = s.routes.as_slice();
    for t in 0..s.tracks.len() {
        let samples = s.block * u32::from(routes[t].channels);
        captures.push(TrackCapture::new(alloc, samples)?)?;
    }
    Ok(captures)
}

/// It, for a run of so many cycles.
pub(super) fn new_stores(alloc: Global, s: &Session, cycles: u32) -> Result<Stores, NoMemory>
    requires { IsValid s.now }
    ensures count { IfOk result (λ r. length r.playbacks.items ≡ length s.now.tracks.items) }
    ensures each { IfOk result (λ r. (t : ℕ) (d : TrackPlaybackRecord)
        → t < length s.now.tracks.items
        → IsNewPlayback s.now.depth (block_of s.now t) (slice_index_or r.playbacks.items t d)) }
    ensures captures { IfOk result (λ r. length r.captures.items ≡ length s.now.tracks.items) }
    ensures each_capture { IfOk result (λ r. (t : ℕ) (k : TrackCaptureRecord)
        → slice_get r.captures.items t ≡ Some k → Counts [] t k × HasBox (block_of s.now t) k) }
    ensures journal { IfOk result (λ r. r.journal ≡ record { items = []; room = cycles }) }
{
    Ok(Stores {
        playbacks: FixedList::from_vec(new_playbacks(alloc, s)?),
        captures: FixedList::from_vec(new_captures(alloc, s)?),
        journal: Journal::new(alloc, cycles)?,
        to_butler: AckSender::new(alloc)?,
        to_control: AckSender::new(alloc)?,
    })
}
