//! The master of a run: its sink, the desk that mixes its blocks, and room for the bytes of one.
ghost use Rattle.std.specs.Prelude.{◌≡◌, ◌*◌, ◌<◌, ◌≤◌, length, slice_set, IfOk, IfErr};
ghost use Rattle.ses_io.specs.Outside.{Writes};
ghost use Rattle.session_model.specs.declared.session.Session.{Session as Opening};
ghost use Rattle.session_model.specs.Formed.{channels_at};
ghost use Rattle.session_model.specs.Valid.{IsValid};
ghost use Rattle.edition_log.specs.EditionState.{IsEditionOf};
ghost use Rattle.route_mix.specs.Blocks.{silence};
ghost use Rattle.master_blocks.specs.State.{IsMasterOf, new_master};
ghost use Rattle.master_blocks.specs.Bytes.{head_bytes, silent_bytes, end_bytes};
ghost use Rattle.master_blocks.specs.Rolled.{Heard, ArePut, rolled_bytes};

use crate::writing::{form_of, sample_size, write_zeros};
use edition_log::Edition;
use locate_loop::places;
use route_mix::Desk;
use ses_io::{Failed, Sink, write_all};
use session_model::Session;
use std::alloc::Global;
use std::marker::Model;
use std::mem::replace;
use wav_codec::{WavForm, encode, header};

/// The master of a run. Contracts see it as a record of `specs/State.antt`. Only `new` takes
/// memory.
#[derive(Drop)]
pub struct MasterBlocks<W: Sink> {
    sink: W,
    form: WavForm,
    desk: Desk,
    /// A place for each frame of a block.
    places: Vec<u64>,
    /// The bytes of a block.
    bytes: Vec<u8>,
}

impl<W: Sink> Model for MasterBlocks<W> {
    ghost use Rattle.std.specs.Prelude.{◌≡◌, ◌*◌, ◌/◌, length};
    ghost use Rattle.wav_codec.specs.Form.{written_form};
    ghost use Rattle.ses_units.specs.Bits.{bits_of};
    ghost use Rattle.route_mix.specs.Desks.{master_block};
    ghost use Rattle.master_blocks.specs.State.{MasterState};

    ghost Value = { MasterState W };

    ghost view = { λ m. record {
      sink = m.sink;
      form = written_form m.form;
      desk = m.desk;
    } };

    ghost invariant = { λ m. (length m.places.items ≡ m.desk.block)
        × (length m.bytes.items ≡ length (master_block m.desk) * (bits_of m.form.bits / 8)) };
}

impl<W: Sink> MasterBlocks<W> {
    /// The master of a session, through which nothing went yet. Err is want of memory, and gives
    /// the sink back.
    pub fn new(alloc: Global, s: &Session, sink: W) -> Result<MasterBlocks<W>, W>
        requires { IsValid s.now }
        ensures new { IfOk result (λ m. m ≡ new_master s.now sink) }
        ensures of { IfOk result (IsMasterOf s.now) }
        ensures back { IfErr result (λ w. w ≡ sink) }
    {
        let form = form_of(s);
        let frames = s.block as usize;
        let samples = frames * form.channels as usize;
        let Ok(desk) = Desk::new(alloc, s) else {
            return Err(sink);
        };
        let Ok(places) = vec![in alloc; 0; frames] else {
            return Err(sink);
        };
        let Ok(bytes) = vec![in alloc; 0; samples * sample_size(s.bits)] else {
            return Err(sink);
        };
        Ok(MasterBlocks {
            sink,
            form,
            desk,
            places,
            bytes,
        })
    }

    /// Writes the header of a file of so many blocks, at most 100,000.
    pub fn begin(&mut self, blocks: u32) -> Result<(), Failed>
        ghost s: { Opening }
        requires of { IsMasterOf s self.old }
        requires few { blocks ≤ 100000 }
        ensures writes { Writes W.outside (head_bytes s blocks)
            self.old.sink self.new.sink result }
        ensures same { self.new ≡ record self.old { sink = self.new.sink } }
    {
        let frames = u64::from(blocks) * self.places.len() as u64;
        let head = header(&self.form, frames);
        write_all(&mut self.sink, &head)
    }

    /// The block of a track, frame by frame, for the block that is mixed next. Tracks count from 0.
    pub fn put(&mut self, track: u32, samples: &[i32])
        ghost s: { Opening }
        requires of { IsMasterOf s self.old }
        requires track { track < length s.tracks.items }
        requires block { length samples.now ≡ s.block * channels_at s track }
        ensures put { self.new ≡ record self.old {
          desk = record self.old.desk
              { inputs = slice_set self.old.desk.inputs track samples.now };
        } }
        ensures of { IsMasterOf s self.new }
    {
        self.desk.put(track, samples);
    }

    /// A track is silent in the block that is mixed next.
    pub fn quiet(&mut self, track: u32)
        ghost s: { Opening }
        requires of { IsMasterOf s self.old }
        requires track { track < length s.tracks.items }
        ensures put { self.new ≡ record self.old {
          desk = record self.old.desk {
            inputs = slice_set self.old.desk.inputs track
                (silence (s.block * channels_at s track));
          };
        } }
        ensures of { IsMasterOf s self.new }
    {
        self.desk.quiet(track);
    }

    /// Mixes the blocks that were put by the routes of an edition, as this block of its generation,
    /// and writes the master's samples. It takes no memory.
    pub fn roll(&mut self, e: &Edition, seq: u32) -> Result<(), Failed>
        ghost heard: { Heard }
        requires of { IsMasterOf heard.session self.old }
        requires edition { IsEditionOf heard.session e.now }
        requires few { seq < 100000 }
        requires put { ArePut heard e.now.transport.generation seq self.old.desk.inputs }
        ensures writes { Writes W.outside (rolled_bytes heard e.now seq)
            self.old.sink self.new.sink result }
        ensures of { IsMasterOf heard.session self.new }
        ensures form { self.new.form ≡ self.old.form }
    {
        let first = u64::from(seq) * u64::from(e.session().block);
        places(e.transport(), first, self.places.as_mut_slice());
        self.desk.mix(e, self.places.as_slice());
        encode(
            self.desk.master(),
            self.form.bits,
            self.bytes.as_mut_slice(),
        );
        let block = self.bytes.as_slice();
        write_all(&mut self.sink, block)
    }

    /// Writes a block of silence. It takes no memory.
    pub fn rest(&mut self) -> Result<(), Failed>
        ghost s: { Opening }
        requires of { IsMasterOf s self.old }
        ensures writes { Writes W.outside (silent_bytes s 1) self.old.sink self.new.sink result }
        ensures same { self.new ≡ record self.old { sink = self.new.sink } }
    {
        self.bytes.as_mut_slice().fill(0);
        write_all(&mut self.sink, self.bytes.as_slice())
    }

    /// Writes the end of a file of so many blocks, of which the first `made` were written: silence
    /// for the others, and a pad byte where the bytes of all samples are odd in number. It takes no
    /// memory.
    pub fn end(&mut self, blocks: u32, made: u32) -> Result<(), Failed>
        ghost s: { Opening }
        requires of { IsMasterOf s self.old }
        requires made { made ≤ blocks }
        requires few { blocks ≤ 100000 }
        ensures writes { Writes W.outside (end_bytes s blocks made)
            self.old.sink self.new.sink result }
        ensures same { self.new ≡ record self.old { sink = self.new.sink } }
    {
        self.bytes.as_mut_slice().fill(0);
        write_zeros(self.bytes.as_slice(), blocks - made, &mut self.sink)?;
        let odd = blocks as usize * self.bytes.len() % 2 == 1;
        if odd {
            write_all(&mut self.sink, &[0])?;
        }
        Ok(())
    }

    /// Gives back what has taken the bytes so far, and has another one take those that follow.
    pub fn replace_sink(&mut self, sink: W) -> W
        ensures back { result ≡ self.old.sink }
        ensures same { self.new ≡ record self.old { sink = sink } }
    {
        replace(&mut self.sink, sink)
    }

    /// What takes the bytes.
    pub fn into_sink(self) -> W
        ensures { result ≡ self.sink }
    {
        let MasterBlocks { sink, .. } = self;
        sink
    }
}
