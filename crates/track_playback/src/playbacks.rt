//! The playbacks of all tracks.
ghost use Rattle.std.specs.Prelude.{◌≡◌, ℕ, ◌*◌, ◌<◌, true, false, List, [], length, slice_get, slice_index_or, IfOk, IfSome};
ghost use Rattle.std.specs.List.{list_any};
ghost use Rattle.std.specs.Option.{option_map_or};
ghost use Rattle.session_model.specs.Valid.{IsValid};
ghost use Rattle.track_playback.specs.declared.playback.TrackPlayback.{TrackPlayback as TrackPlaybackRecord};
ghost use Rattle.session_model.specs.Formed.{channels_at};
ghost use Rattle.engine_model.specs.Mixed.{newest_samples};
ghost use Rattle.disk_ring.specs.Receiver.{Receiver};
ghost use Rattle.piece_item.specs.declared.item.Item.{Item as ItemRecord};
ghost use Rattle.track_playback.specs.Answers.{AllLook, AllShow, AllThere, HaveLookedUp, IsMissing};
ghost use Rattle.track_playback.specs.Heard.{AreHeard};
ghost use Rattle.track_playback.specs.Looks.{Looks};
ghost use Rattle.track_playback.specs.Played.{AllPlayed, IsNewPlayback, IsPlayed, KnowsTheEnds};
ghost use Rattle.track_playback.specs.SpareBoxes.{HasHusk, received_items};

use crate::play_position::PlayPosition;
use crate::playback::{SpareBox, TrackPlayback};
use disk_ring::RingOut;
use piece_item::{Item, SampleBlock};
use play_window::Window;
use ses_io::NoMemory;
use session_model::Session;
use std::alloc::Global;

// One look of a track whose spare box may be filled: most find nothing.
fn look_for_more(ring: &mut RingOut<Item>, playback: &mut TrackPlayback, at: &PlayPosition)
    requires played { (samples : ℕ) × IsPlayed at.now samples ring.old playback.old }
    requires closed { playback.old.closed ≡ ring.old.ended }
    requires husk { HasHusk playback.old.spare }
    ensures { Looks at.now ring.old playback.old ring.new playback.new }
{
    if ring.is_empty() {
        return;
    }
    playback.look(ring, *at);
}

// One look of a track.
fn look_at(ring: &mut RingOut<Item>, playback: &mut TrackPlayback, at: &PlayPosition)
    requires played { (samples : ℕ) × IsPlayed at.now samples ring.old playback.old }
    requires closed { playback.old.closed ≡ ring.old.ended }
    ensures { Looks at.now ring.old playback.old ring.new playback.new }
{
    if !playback.has_husk() {
        playback.look(ring, *at);
        return;
    }
    look_for_more(ring, playback, at);
}

/// Whether each track has the piece that is played next. Tracks are served in their order, so the
/// last one is asked first.
pub fn all_there(plays: &[RingOut<Item>], playbacks: &[TrackPlayback], at: PlayPosition) -> bool
    requires { AllShow at plays.now playbacks.now }
    ensures there { result ≡ true → AllThere at plays.now }
    ensures missing { result ≡ false → IsMissing at plays.now }
{
    let mut left = plays.len();
    while left > 0 {
        left -= 1;
        if !playbacks[left].is_there(at) {
            return false;
        }
    }
    true
}

/// One look of each track. It takes no memory, and waits for nobody.
pub fn look_at_all(plays: &mut [RingOut<Item>], playbacks: &mut [TrackPlayback], at: PlayPosition)
    requires some { 0 < at.depth }
    requires played { AllPlayed at plays.old playbacks.old }
    requires closed { KnowsTheEnds plays.old playbacks.old }
    ensures looks { AllLook at plays.old playbacks.old plays.new playbacks.new }
    ensures looked_up { HaveLookedUp at plays.old plays.new }
    ensures shows { AllShow at plays.new playbacks.new }
{
    for t in 0..playbacks.len() {
        look_at(&mut plays[t], &mut playbacks[t], &at);
    }
}

// The playback of a track that nothing was received of.
fn new_playback(alloc: Global, depth: u32, samples: u32) -> Result<TrackPlayback, NoMemory>
    requires { 0 < depth }
    ensures { IfOk result (IsNewPlayback depth samples) }
{
    Ok(TrackPlayback {
        window: Window::new(alloc, depth, samples)?,
        spare: SpareBox::Husk(Item::blank(alloc, samples)?),
        tail: 0,
        closed: false,
    })
}

/// A playback for each track of a session.
pub fn new_playbacks(alloc: Global, s: &Session) -> Result<Vec<TrackPlayback>, NoMemory>
    requires { IsValid s.now }
    ensures count { IfOk result (λ playbacks.
        length playbacks.items ≡ length s.now.tracks.items) }
    ensures each { IfOk result (λ playbacks. (t : ℕ) (d : TrackPlaybackRecord)
        → t < length s.now.tracks.items
        → IsNewPlayback s.now.depth (s.now.block * channels_at s.now t)
        (slice_index_or playbacks.items t d)) }
{
    let mut playbacks = Vec::new(alloc);
    let routes = s.routes.as_slice();
    for t in 0..s.tracks.len() {
        let samples = s.block * u32::from(routes[t].channels);
        playbacks.push(new_playback(alloc, s.depth, samples)?)?;
    }
    Ok(playbacks)
}

/// Whether the ring of a track has answered Closed.
pub fn any_closed(playbacks: &[TrackPlayback]) -> bool
    ensures { result ≡ list_any (λ d. d.closed) playbacks.now }
{
    playbacks.iter().any(|playback| playback.closed)
}

/// The block that is played next of a track, where a piece of it was received. Tracks count from 0.
pub fn heard_block(
    playbacks: &[TrackPlayback],
    track: u32,
    at: PlayPosition,
) -> Option<&SampleBlock>
    ghost plays: { List (Receiver ItemRecord) }
    requires heard { AreHeard at plays playbacks.now }
    requires track { track < length playbacks.now }
    ensures newest { (r : Receiver ItemRecord) → slice_get plays track ≡ Some r
        → option_map_or (λ block. block.now.items) result []
        ≡ newest_samples at.generation at.next (received_items r) }
    ensures whole { (r : Receiver ItemRecord) → slice_get plays track ≡ Some r
        → IfSome result (λ block. length block.now.items ≡ r.room) }
{
    let piece = playbacks[track as usize]
        .window
        .piece(at.generation, at.next)?;
    Some(&piece.samples)
}
