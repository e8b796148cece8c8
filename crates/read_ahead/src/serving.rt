//! The tracks are served in their order, each until its ring is full or nothing is due, and all together by so many items.
ghost use Rattle.std.specs.Prelude.{◌≡◌, ◌<◌, ◌+◌, false, length, IfOk, IfErr, MatchResult};
ghost use Rattle.audio_source.specs.Told.{source_sound};
ghost use Rattle.track_render.specs.Reading.{IsReadOn};
ghost use Rattle.edition_log.specs.EditionState.{IsEditionState};
ghost use Rattle.read_ahead.specs.SendProgress.{needs_of, target_of};
ghost use Rattle.read_ahead.specs.Reader.{IsReady, IsTold};
ghost use Rattle.read_ahead.specs.Items.{block_room};
ghost use Rattle.read_ahead.specs.Serves.{IsStocked, IsAtHand, Serves, HasServed};
ghost use Rattle.read_ahead.specs.AllServes.{AllStocked, AllServe, HaveServed, HasStopped, AllAtHand, AreShut, AreEntered, Goes, total_sent};

use crate::pass::Pass;
use crate::sending::send_next;
use crate::supply::{SourceReader, TrackSupply};
use audio_source::ReadFault;
use disk_ring::RingIn;
use edition_log::Edition;
use piece_item::Item;
use ses_io::Media;

/// Serves one track by at most so many items, and answers how many it sent.
pub(crate) fn serve<M: Media>(
    reader: &mut SourceReader<M>,
    pass: &Pass,
    track: u32,
    supply: &mut TrackSupply,
    end: &mut RingIn<Item>,
    most: u32,
) -> Result<u32, ReadFault>
    requires ready { IsReady reader.old pass.now }
    requires track { track < length pass.now.edition.session.tracks.items }
    requires stocked { IsStocked (block_room pass.now.edition track) supply.old end.old }
    requires still_open { end.old.closed ≡ false }
    ensures serves { Serves (IsTold M.outside reader.old)
        (source_sound (M.outside.files reader.old.media) reader.old.sources.opened)
        pass.now.edition (needs_of (target_of pass.now track))
        supply.old end.old supply.new end.new }
    ensures answer { MatchResult result
        (HasServed (needs_of (target_of pass.now track)) most end.old supply.new end.new)
        (λ fault. length end.new.sent < length end.old.sent + most) }
    ensures stocked { IsStocked (block_room pass.now.edition track) supply.new end.new }
    ensures at_hand { IsAtHand (needs_of (target_of pass.now track)) supply.old
        → length end.new.sent ≡ length end.old.sent → reader.new ≡ reader.old }
    ensures scratch { reader.new.room ≡ reader.old.room }
    ensures read { IsReadOn M.outside reader.old.media reader.new.media
        reader.old.sources reader.new.sources result }
{
    if supply.has_nothing_due(pass, track) {
        return Ok(0);
    }
    for sent in 0..most {
        if !send_next(reader, pass, track, supply, end)? {
            return Ok(sent);
        }
    }
    Ok(most)
}

/// Serves all tracks by at most so many items, and answers how many it sent.
pub(crate) fn serve_all<M: Media>(
    reader: &mut SourceReader<M>,
    pass: &Pass,
    supplies: &mut [TrackSupply],
    sends: &mut [RingIn<Item>],
    most: u32,
) -> Result<u32, ReadFault>
    requires ready { IsReady reader.old pass.now }
    requires tracks { length supplies.old ≡ length pass.now.edition.session.tracks.items }
    requires stocked { AllStocked pass.now.edition supplies.old sends.old }
    ensures serves { AllServe (IsTold M.outside reader.old)
        (source_sound (M.outside.files reader.old.media) reader.old.sources.opened)
        pass.now supplies.old sends.old supplies.new sends.new }
    ensures answer { IfOk result (HaveServed pass.now most sends.old supplies.new sends.new) }
    ensures stopped { IfErr result
        (λ fault. HasStopped pass.now most sends.old supplies.new sends.new) }
    ensures some { IfErr result (λ fault. 0 < most) }
    ensures at_hand { AllAtHand pass.now supplies.old
        → total_sent sends.new ≡ total_sent sends.old → reader.new ≡ reader.old }
    ensures scratch { reader.new.room ≡ reader.old.room }
    ensures read { IsReadOn M.outside reader.old.media reader.new.media
        reader.old.sources reader.new.sources result }
{
    let mut sent = 0;
    let count = pass.edition.session().tracks.len() as u32;
    for track in 0..count {
        if sent == most {
            return Ok(most);
        }
        let given = serve(
            reader,
            pass,
            track,
            &mut supplies[track as usize],
            &mut sends[track as usize],
            most - sent,
        )?;
        sent += given;
    }
    Ok(sent)
}

/// Serves all tracks in their order by at most so many items, and answers how many it sent. Where a read fails it closes
/// every ring. What was made before isn't made again; it takes no memory.
pub fn send_all<M: Media>(
    reader: &mut SourceReader<M>,
    pass: &Pass,
    supplies: &mut [TrackSupply],
    sends: &mut [RingIn<Item>],
    most: u32,
) -> Result<u32, ReadFault>
    requires ready { IsReady reader.old pass.now }
    requires tracks { length supplies.old ≡ length pass.now.edition.session.tracks.items }
    requires stocked { AllStocked pass.now.edition supplies.old sends.old }
    ensures goes { Goes (IsTold M.outside reader.old)
        (source_sound (M.outside.files reader.old.media) reader.old.sources.opened)
        pass.now most supplies.old sends.old result supplies.new sends.new }
    ensures some { IfErr result (λ fault. 0 < most) }
    ensures at_hand { AllAtHand pass.now supplies.old
        → total_sent sends.new ≡ total_sent sends.old → reader.new ≡ reader.old }
    ensures scratch { reader.new.room ≡ reader.old.room }
    ensures read { IsReadOn M.outside reader.old.media reader.new.media
        reader.old.sources reader.new.sources result }
{
    match serve_all(reader, pass, supplies, sends, most) {
        Ok(sent) => Ok(sent),
        Err(fault) => {
            close_all(sends);
            Err(fault)
        }
    }
}

/// Closes every ring: nothing more is sent.
pub fn close_all(sends: &mut [RingIn<Item>])
    ensures { AreShut sends.old sends.new }
{
    for track in 0..sends.len() {
        sends[track].close();
    }
}

/// Enters an edition for each track.
pub fn enter_all(e: &Edition, supplies: &mut [TrackSupply])
    requires { length supplies.old ≡ length e.now.session.tracks.items }
    ensures entered { AreEntered e.now supplies.old supplies.new }
    ensures seen { IsEditionState e.now }
{
    let generation = e.transport().generation;
    let count = e.session().tracks.len() as u32;
    for track in 0..count {
        let supply = &mut supplies[track as usize];
        supply.progress = supply.progress.entered(generation, e.touched(track));
    }
}
