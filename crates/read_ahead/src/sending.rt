//! One item of a track: it is made in the spare box, and put into the track's ring. Where the ring is full the box is kept
//! as it was made.
ghost use Rattle.std.specs.Prelude.{◌≡◌, ◌↔◌, ◌<◌, ◌≤◌, ◌*◌, IsTrue, true, false, [], length, OnOk};
ghost use Rattle.ses_io.specs.Outside.{OnlyReads, ReadCause};
ghost use Rattle.session_model.specs.Valid.{IsValid};
ghost use Rattle.session_model.specs.Views.{track_regions};
ghost use Rattle.audio_source.specs.Opened.{IsListed};
ghost use Rattle.audio_source.specs.Told.{source_sound};
ghost use Rattle.audio_source.specs.Lines.{HoldsAsRead};
ghost use Rattle.track_render.specs.Reading.{IsReadOn};
ghost use Rattle.piece_item.specs.Views.{kind_of};
ghost use Rattle.read_ahead.specs.SendProgress.{needs_of, target_of};
ghost use Rattle.read_ahead.specs.Reader.{IsReady, IsTold};
ghost use Rattle.read_ahead.specs.Items.{block_room, IsBlockOf};
ghost use Rattle.read_ahead.specs.Serves.{IsStocked, IsInReach, IsAtHand, Serves, HasSent};

use crate::pass::Pass;
use crate::supply::{SourceReader, TrackSupply};
use crate::target::TrackTarget;
use audio_source::ReadFault;
use disk_ring::RingIn;
use edition_log::Edition;
use piece_item::{Item, Kind};
use ses_io::Media;
use session_model::Session;
use track_render::render;

// The first frame of a block.
fn first_frame(block: u32, seq: u32) -> u64
    requires block { block ≤ 4096 }
    requires seq { seq < 100000 }
    ensures frame { result ≡ seq * block }
    ensures near { result ≤ 409595904 }
{
    u64::from(seq) * u64::from(block)
}

// Whether a track has no region, so that it says nothing anywhere.
fn has_no_region(s: &Session, track: u32) -> bool
    requires { track < length s.now.tracks.items }
    ensures { IsTrue result ↔ (track_regions s.now track ≡ []) }
{
    s.tracks.as_slice()[track as usize].list.is_empty()
}

// Makes the box an item of this kind of a track: a piece has its block of samples.
fn fill<M: Media>(
    reader: &mut SourceReader<M>,
    e: &Edition,
    track: u32,
    kind: Kind,
    item: &mut Item,
) -> Result<(), ReadFault>
    requires valid { IsValid e.now.session }
    requires listed { IsListed e.now.session.rate e.now.session.sources.items
        reader.old.sources.opened }
    requires scratch { reader.old.room ≡ e.now.session.block }
    requires track { track < length e.now.session.tracks.items }
    requires near { IsInReach track (kind_of kind) }
    requires room { length item.old.samples.items ≡ block_room e.now track }
    ensures kind { item.new.kind ≡ kind }
    ensures room { length item.new.samples.items ≡ length item.old.samples.items }
    ensures block { IsTold M.outside reader.old → OnOk result
        (IsBlockOf (source_sound (M.outside.files reader.old.media) reader.old.sources.opened)
        e.now (kind_of kind) item.new.samples.items) }
    ensures scratch { reader.new.room ≡ reader.old.room }
    ensures read { IsReadOn M.outside reader.old.media reader.new.media
        reader.old.sources reader.new.sources result }
{
    let Kind::Piece { seq, .. } = kind else {
        item.kind = kind;
        return Ok(());
    };
    let session = e.session();
    if has_no_region(session, track) {
        item.hush_as(kind);
        return Ok(());
    }
    let first = first_frame(session.block, seq);
    let out = item.fill_as(kind);
    render(
        &mut reader.sources,
        &mut reader.media,
        session,
        track,
        e.transport(),
        first,
        &mut reader.scratch,
        out,
    )
}

/// Sends the item that is due, and answers whether one was sent: none is where the ring is full or nothing is due. What
/// was made before isn't made again. The box that comes back, the husk or the item itself, is the spare one.
pub(crate) fn send_next<M: Media>(
    reader: &mut SourceReader<M>,
    pass: &Pass,
    track: u32,
    supply: &mut TrackSupply,
    end: &mut RingIn<Item>,
) -> Result<bool, ReadFault>
    requires ready { IsReady reader.old pass.now }
    requires track { track < length pass.now.edition.session.tracks.items }
    requires stocked { IsStocked (block_room pass.now.edition track) supply.old end.old }
    requires still_open { end.old.closed ≡ false }
    ensures serves { Serves (IsTold M.outside reader.old)
        (source_sound (M.outside.files reader.old.media) reader.old.sources.opened)
        pass.now.edition (needs_of (target_of pass.now track))
        supply.old end.old supply.new end.new }
    ensures answer { HasSent (needs_of (target_of pass.now track)) end.old
        supply.new end.new result }
    ensures stocked { IsStocked (block_room pass.now.edition track) supply.new end.new }
    ensures at_hand { IsAtHand (needs_of (target_of pass.now track)) supply.old
        → reader.new ≡ reader.old }
    ensures scratch { reader.new.room ≡ reader.old.room }
    ensures read { IsReadOn M.outside reader.old.media reader.new.media
        reader.old.sources reader.new.sources result }
{
    let target = TrackTarget::of(pass, track);
    let Some((kind, then)) = supply.progress.step(&target) else {
        return Ok(false);
    };
    let Some(mut item) = supply.spare.take() else {
        unreachable!()
    };
    if !(supply.made && item.kind == kind) {
        supply.made = false;
        if let Err(fault) = fill(reader, pass.edition, track, kind, &mut item) {
            supply.spare = Some(item);
            return Err(fault);
        }
    }
    match end.put(item) {
        Ok(husk) => {
            supply.made = false;
            supply.spare = Some(husk);
            supply.progress = then;
            Ok(true)
        }
        Err(full) => {
            supply.made = true;
            supply.spare = Some(full.item);
            Ok(false)
        }
    }
}
