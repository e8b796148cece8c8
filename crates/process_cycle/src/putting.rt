//! The pieces that are played next are put on the desk of the master.
ghost use Rattle.std.specs.Prelude.{◌≡◌, ◌*◌, ◌<◌, length, map, slice_set};
ghost use Rattle.ses_io.specs.Outside.{Writes};
ghost use Rattle.session_model.specs.declared.session.Session.{Session as Opening};
ghost use Rattle.session_model.specs.Formed.{channels_at};
ghost use Rattle.edition_log.specs.EditionState.{IsEditionOf};
ghost use Rattle.track_playback.specs.Heard.{AreHeard, IsAt};
ghost use Rattle.track_playback.specs.SpareBoxes.{received_items};
ghost use Rattle.master_blocks.specs.State.{IsMasterOf};
ghost use Rattle.master_blocks.specs.Rolled.{ArePut};
ghost use Rattle.process_ends.specs.Ends.{HaveRooms};
ghost use Rattle.process_cycle.specs.Heard.{Listened, heard_bytes};

use cycle_journal::State;
use edition_log::Edition;
use master_blocks::MasterBlocks;
use piece_item::SampleBlock;
use ses_io::{Failed, Sink};
use track_playback::{PlayPosition, TrackPlayback, heard_block};

// Puts a block of a track. Silence isn't copied.
fn put_block<W: Sink>(block: &SampleBlock, track: u32, master: &mut MasterBlocks<W>)
    ghost s: { Opening }
    requires of { IsMasterOf s master.old }
    requires track { track < length s.tracks.items }
    requires block { length block.now.items ≡ s.block * channels_at s track }
    ensures put { master.new ≡ record master.old {
      desk = record master.old.desk
          { inputs = slice_set master.old.desk.inputs track block.now.items };
    } }
    ensures of { IsMasterOf s master.new }
{
    if block.is_silent() {
        master.quiet(track);
    } else {
        master.put(track, block.as_slice());
    }
}

// Puts the block of each track that is played at a position, and silence where no piece of it was
// received.
fn put_blocks<W: Sink>(playbacks: &[TrackPlayback], at: PlayPosition, master: &mut MasterBlocks<W>)
    ghost on: { Listened }
    requires heard { AreHeard at on.plays playbacks.now }
    requires tracks { length on.plays ≡ length on.session.tracks.items }
    requires rooms { HaveRooms on.session on.plays }
    requires of { IsMasterOf on.session master.old }
    ensures put { ArePut (record { session = on.session; tracks = map received_items on.plays })
        at.generation at.next master.new.desk.inputs }
    ensures same { master.new ≡ record master.old { desk = master.new.desk } }
    ensures of { IsMasterOf on.session master.new }
{
    for t in 0..playbacks.len() {
        let track = t as u32;
        match heard_block(playbacks, track, at) {
            Some(block) => put_block(block, track, master),
            None => master.quiet(track),
        }
    }
}

/// Writes the block of a state that is played at a position: the mix of what was received where it
/// rolls, else silence. It takes no memory.
pub(crate) fn write_block<W: Sink>(
    playbacks: &[TrackPlayback],
    e: &Edition,
    state: State,
    at: PlayPosition,
    master: &mut MasterBlocks<W>,
) -> Result<(), Failed>
    ghost on: { Listened }
    requires heard { AreHeard at on.plays playbacks.now }
    requires tracks { length on.plays ≡ length on.session.tracks.items }
    requires rooms { HaveRooms on.session on.plays }
    requires of { IsMasterOf on.session master.old }
    requires edition { IsEditionOf on.session e.now }
    requires generation { at.generation ≡ e.now.transport.generation }
    requires few { at.next < 100000 }
    requires rolls { IsAt at state }
    ensures writes { Writes W.outside (heard_bytes on e.now state)
        master.old.sink master.new.sink result }
    ensures of { IsMasterOf on.session master.new }
{
    match state {
        State::Stopped | State::Seeking { .. } => master.rest(),
        State::Rolling { seq, .. } => {
            put_blocks(playbacks, at, master);
            master.roll(e, seq)
        }
    }
}
