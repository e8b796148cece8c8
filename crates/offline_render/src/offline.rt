//! One frame of a track and of the master.
ghost use Rattle.std.specs.Prelude.{◌≡◌, ◌*◌, ◌^◌, ◌<◌, ◌≤◌, ◌⊎◌, length, All, OnOk};
ghost use Rattle.session_model.specs.Formed.{IsFormed, channels_at};
ghost use Rattle.session_model.specs.Frames.{sounds_of};
ghost use Rattle.session_model.specs.Valid.{IsValid};
ghost use Rattle.session_model.specs.Views.{routes_of};
ghost use Rattle.route_graph.specs.Order.{IsOrder};
ghost use Rattle.playlist_layers.specs.Reads.{HasSource, IsRead};
ghost use Rattle.engine_model.specs.Played.{master_channels};
ghost use Rattle.offline_render.specs.Frame.{track_frame, master_frame, samples, heard_samples, AreHeard, named_channels};

use crate::walk::master;
use mix_laws::links_lead_wide;
use playlist_layers::{Scratch, render};
use route_graph::Order;
use ses_io::{Failed, NoMemory};
use session_model::{Frames, Playlist, Session};
use sound_laws::only_own_channels;
use std::alloc::Global;
use std::marker::Model;

/// What plain rendering needs: room for one frame of a track. It serves every session, and contracts see nothing of it.
#[derive(Drop)]
pub struct Offline {
    scratch: Scratch,
}

impl Model for Offline {
    ghost use Rattle.std.specs.Prelude.{◌≡◌, ⊤};

    ghost Value = { ⊤ };

    ghost view = { λ _. tt };

    ghost invariant = { λ o. o.scratch ≡ 1 };
}

// The channels of a track, which are those of its route.
fn channels_of(s: &Session, t: usize) -> u16
    requires formed { IsFormed s.now }
    requires there { t < length s.now.tracks.items }
    ensures channels { result ≡ channels_at s.now t }
    ensures some { (result ≡ 1) ⊎ (result ≡ 2) }
    ensures few { result ≤ 2 }
{
    s.routes.as_slice()[t].channels
}

impl Offline {
    /// Room for a frame of a session, also after edits. No other call takes memory.
    pub fn new(alloc: Global, _s: &Session) -> Result<Offline, NoMemory> {
        Ok(Offline {
            scratch: Scratch::new(alloc, 1)?,
        })
    }

    /// The samples of a track at a place, one for each channel, at 24-bit scale.
    /// What `out` holds after Failed isn't said.
    pub fn track<F: Frames>(
        &mut self,
        list: &Playlist,
        channels: u16,
        frames: &mut F,
        place: u64,
        out: &mut [i32],
    ) -> Result<(), Failed>
        requires channels { (channels ≡ 1) ⊎ (channels ≡ 2) }
        requires sources { All (HasSource (F.outside.channels frames.old) channels) list.now }
        requires out { length out.old ≡ channels }
        requires near { place < 2 ^ 41 }
        ensures told { F.outside.tells frames.old → OnOk result (out.new ≡ track_frame
            (sounds_of (F.outside.frames frames.old)) list.now channels place) }
        ensures read { IsRead F.outside F.rest frames.old frames.new result }
    {
        render(list, channels, place, &mut self.scratch, frames, out)
    }

    /// The samples of the master at a place, one for each channel, at 24-bit scale, where channel
    /// c of track t has the sample `tracks[2 * t + c]`.
    pub fn mix(&mut self, s: &Session, order: &Order, tracks: &[i32], place: u64, out: &mut [i32])
        requires valid { IsValid s.now }
        requires order { IsOrder (routes_of s.now) order.now }
        requires tracks { length tracks.now ≡ 2 * length s.now.tracks.items }
        requires out { length out.old ≡ master_channels s.now }
        requires near { place < 2 ^ 41 }
        ensures { out.new ≡ master_frame s.now (samples tracks.now) place }
    {
        for c in 0..out.len() {
            out[c] = master(s, order, tracks, place, c);
        }
    }

    // Puts the samples of all tracks at a place side by side, two numbers for each.
    fn tracks<F: Frames>(
        &mut self,
        s: &Session,
        frames: &mut F,
        place: u64,
        out: &mut [i32],
    ) -> Result<(), Failed>
        requires valid { IsValid s.now }
        requires sources { F.outside.channels frames.old ≡ named_channels s.now }
        requires out { length out.old ≡ 2 * length s.now.tracks.items }
        requires near { place < 2 ^ 41 }
        ensures told { F.outside.tells frames.old → OnOk result (AreHeard
            (sounds_of (F.outside.frames frames.old)) s.now place
            (length s.now.tracks.items) out.new) }
        ensures read { IsRead F.outside F.rest frames.old frames.new result }
    {
        for (t, track) in s.tracks.as_slice().iter().enumerate() {
            let channels = channels_of(s, t);
            let part = &mut out[2 * t..2 * t + channels as usize];
            self.track(&track.list, channels, frames, place, part)?;
        }
        Ok(())
    }

    /// The samples of the master at a place, one for each channel, at 24-bit scale, of what the
    /// session's playlists sound like there. What `out` holds after Failed isn't said.
    pub fn frame<F: Frames>(
        &mut self,
        s: &Session,
        order: &Order,
        frames: &mut F,
        place: u64,
        out: &mut [i32],
    ) -> Result<(), Failed>
        requires valid { IsValid s.now }
        requires order { IsOrder (routes_of s.now) order.now }
        requires sources { F.outside.channels frames.old ≡ named_channels s.now }
        requires out { length out.old ≡ master_channels s.now }
        requires near { place < 2 ^ 41 }
        ensures told { F.outside.tells frames.old → OnOk result (out.new ≡ master_frame s.now
            (heard_samples (sounds_of (F.outside.frames frames.old)) s.now place) place) }
        ensures read { IsRead F.outside F.rest frames.old frames.new result }
    {
        // Their contracts are the laws that the channels which a track hasn't say nothing by.
        links_lead_wide();
        only_own_channels();
        let mut room = [0; 64];
        let tracks = &mut room[..2 * s.tracks.len()];
        self.tracks(s, frames, place, tracks)?;
        self.mix(s, order, tracks, place, out);
        Ok(())
    }
}
