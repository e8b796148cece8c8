//! The desk: it holds a block of each route, and mixes them by a session's routes.
ghost use Rattle.std.specs.Prelude.{◌≡◌, ◌-◌, ◌*◌, ◌^◌, ◌<◌, [], length, slice_index_or, slice_set, All, IfOk};
ghost use Rattle.ses_units.specs.Bits.{bits_of};
ghost use Rattle.session_model.specs.declared.session.Session.{Session as Opening};
ghost use Rattle.session_model.specs.Valid.{IsValid};
ghost use Rattle.mix_kernel.specs.Blocks.{filed};
ghost use Rattle.route_mix.specs.Blocks.{silence};
ghost use Rattle.route_mix.specs.Desks.{IsDeskOf, silent_desk, mixed_desk, master_block};

use crate::blocks::{new_sounds, new_sums};
use crate::mixing::mix_all;
use crate::sound::Sound;
use crate::sums::Sums;
use edition_log::Edition;
use mix_kernel::clip_file;
use ses_io::NoMemory;
use ses_units::Bits;
use session_model::Session;
use std::alloc::Global;
use std::marker::Model;

/// The routes of a session with a block of samples each, frame by frame and in each frame channel
/// by channel. Contracts see it as a record of `specs/Desks.antt`. Only `new` takes memory.
#[derive(Drop)]
pub struct Desk {
    block: u32,
    inputs: Vec<Sound>,
    posts: Vec<Sound>,
    sums: Vec<Sums>,
    gains: Vec<u32>,
    zeros: Vec<i32>,
}

impl Model for Desk {
    ghost use Rattle.std.specs.Prelude.{length};
    ghost use Rattle.route_mix.specs.Desks.{DeskState, KeepsRoom};

    ghost Value = { DeskState };

    ghost view = { λ d. record {
      block = d.block;
      inputs = d.inputs.items;
      posts = d.posts.items;
    } };

    ghost invariant = { λ d. KeepsRoom d.block d.inputs.items d.posts.items d.sums.items
        (length d.gains.items) d.zeros.items };
}

impl Desk {
    /// A desk of a session's routes, on which nothing sounds.
    pub fn new(alloc: Global, s: &Session) -> Result<Desk, NoMemory>
        requires { IsValid s.now }
        ensures desk { IfOk result (λ d. d ≡ silent_desk s.now) }
        ensures session { IfOk result (IsDeskOf s.now) }
    {
        let room = 2 * s.block as usize;
        Ok(Desk {
            block: s.block,
            inputs: new_sounds(alloc, s)?,
            posts: new_sounds(alloc, s)?,
            sums: new_sums(alloc, s)?,
            gains: vec![in alloc; 0; room]?,
            zeros: vec![in alloc; 0; room]?,
        })
    }

    /// The block of a track, which is mixed until another is put.
    pub fn put(&mut self, track: u32, samples: &[i32])
        requires track { track < length self.old.inputs }
        requires block { length samples.now ≡ length (slice_index_or self.old.inputs track []) }
        ensures put { self.new ≡ record self.old
            { inputs = slice_set self.old.inputs track samples.now } }
        ensures session { (s : Opening) → IsDeskOf s self.old → IsDeskOf s self.new }
    {
        self.inputs[track as usize].put(samples);
    }

    /// A track is silent until a block is put.
    pub fn quiet(&mut self, track: u32)
        requires { track < length self.old.inputs }
        ensures put { self.new ≡ record self.old {
          inputs = slice_set self.old.inputs track
              (silence (length (slice_index_or self.old.inputs track [])));
        } }
        ensures session { (s : Opening) → IsDeskOf s self.old → IsDeskOf s self.new }
    {
        self.inputs[track as usize].hush();
    }

    /// Mixes a block by the routes of an edition, at a place for each frame: each route takes in
    /// what leads to it, and gives its post. It takes no memory.
    pub fn mix(&mut self, e: &Edition, places: &[u64])
        requires desk { IsDeskOf e.now.session self.old }
        requires places { length places.now ≡ self.old.block }
        requires near { All (λ x. x < 2 ^ 41) places.now }
        ensures mixed { self.new ≡ mixed_desk e.now.session places.now self.old }
        ensures session { (s : Opening) → IsDeskOf s self.old → IsDeskOf s self.new }
    {
        mix_all(
            e.session(),
            e.order().routes(),
            places,
            self.zeros.as_slice(),
            self.gains.as_mut_slice(),
            self.inputs.as_mut_slice(),
            self.posts.as_mut_slice(),
            self.sums.as_mut_slice(),
        );
    }

    /// The input of a route in the last mix; of a track, the block that was put last.
    pub fn input(&self, route: u32) -> &[i32]
        requires { route < length self.now.inputs }
        ensures { result.now ≡ slice_index_or self.now.inputs route [] }
    {
        self.inputs[route as usize].shown(self.zeros.as_slice())
    }

    /// What a route gave through its fader in the last mix, silence before the first.
    pub fn post(&self, route: u32) -> &[i32]
        requires { route < length self.now.posts }
        ensures { result.now ≡ slice_index_or self.now.posts route [] }
    {
        self.posts[route as usize].shown(self.zeros.as_slice())
    }

    /// The block of the master: the sound of the run.
    pub fn master(&self) -> &[i32]
        ensures { result.now ≡ master_block self.now }
    {
        self.posts[self.posts.len() - 1].shown(self.zeros.as_slice())
    }

    /// Writes the block of the master as a file of these bits holds it.
    pub fn master_samples(&self, bits: Bits, out: &mut [i32])
        requires { length out.old ≡ length (master_block self.now) }
        ensures { out.new ≡ filed (bits_of bits) (master_block self.now) }
    {
        clip_file(self.master(), bits, out);
    }
}
