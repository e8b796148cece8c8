//! The input of a run: each read makes the samples of one more block of it.
ghost use Rattle.std.specs.Prelude.{◌≡◌, ◌*◌, ◌≤◌, pos, length, replicate, IfSome, IfOk, IfErr, OnOk, OnErr, All};
ghost use Rattle.ses_io.specs.Faults.{HasCause};
ghost use Rattle.wav_codec.specs.Info.{IsFound};
ghost use Rattle.session_model.specs.Frames.{IsSample};
ghost use Rattle.input_blocks.specs.Rest.{stream_told};
ghost use Rattle.input_blocks.specs.State.{SoFar, from_here, one_more, IsReadTo, next_block, IsCutShort};

use crate::fault::InputFault;
use crate::filling::fill;
use ses_io::{FixedList, Source};
use std::alloc::Global;
use std::marker::Model;
use wav_codec::WavInfo;

// What is read where there is no input: one channel without a frame.
const NO_INPUT: WavInfo = WavInfo {
    channels: 1,
    rate: 8_000,
    bits: 8,
    data_at: 0,
    frames: 0,
};

/// The input of a run, read block by block. Contracts see how far it was read, and the block that was read last.
#[derive(Drop)]
pub struct InputBlocks<I: Source> {
    input: I,
    info: WavInfo,
    block: u32,
    done: u64,
    bytes: FixedList<u8>,
    samples: FixedList<i32>,
}

impl<I: Source> Model for InputBlocks<I> {
    ghost use Rattle.input_blocks.specs.Rest.{stream_of};
    ghost use Rattle.input_blocks.specs.State.{InputState};
    ghost use Rattle.input_blocks.specs.Kept.{IsKept};

    ghost Value = { InputState I };

    ghost view = { λ b. record {
      input = b.input;
      stream = stream_of b.info;
      block = b.block;
      done = b.done;
      samples = b.samples.items;
    } };

    ghost invariant = { λ b. IsKept b.info b.block b.done b.bytes.items b.samples.items };
}

impl<I: Source> InputBlocks<I> {
    /// Blocks of so many frames, 1..4,096, of what the input has left, which begins with frame 0 of the data of `form`;
    /// what follows its frames is never read. With no form there is no input, and each block is silence of one channel.
    /// Err is want of memory, and gives the input back.
    pub fn new(
        alloc: Global,
        input: I,
        form: Option<WavInfo>,
        block: u32,
    ) -> Result<InputBlocks<I>, I>
        requires form { IfSome form IsFound }
        requires some { 1 ≤ block }
        requires few { block ≤ 4096 }
        ensures new { IfOk result (λ b. b ≡ record {
          input = input;
          stream = stream_told form;
          block = block;
          done = 0;
          samples = replicate (block * (stream_told form).form.channels) (pos 0);
        }) }
        ensures begins { IfOk result (IsReadTo I.outside (from_here I.outside input)) }
        ensures back { IfErr result (λ i. i ≡ input) }
    {
        let info = form.unwrap_or(NO_INPUT);
        let many = block as usize * info.channels as usize;
        let Ok(bytes) = vec![in alloc; 0; many * 3] else {
            return Err(input);
        };
        let Ok(samples) = vec![in alloc; 0; many] else {
            return Err(input);
        };
        Ok(InputBlocks {
            input,
            info,
            block,
            done: 0,
            bytes: FixedList::from_vec(bytes),
            samples: FixedList::from_vec(samples),
        })
    }

    /// Reads the next block. It takes no memory. An input that has ended before its frames is asked again at the next
    /// block. After a fault nothing more may be read: what the input lost isn't made up for.
    pub fn read(&mut self) -> Result<(), InputFault>
        ghost at: { SoFar }
        requires { IsReadTo I.outside at self.old }
        ensures place { OnOk result (IsReadTo I.outside (one_more at) self.new) }
        ensures samples { I.outside.tells
            → OnOk result (self.new.samples ≡ next_block at self.old) }
        ensures range { All IsSample self.new.samples }
        ensures short { OnErr result (IsCutShort I.outside self.old self.new) }
        ensures stream { self.new.stream ≡ self.old.stream }
        ensures block { self.new.block ≡ self.old.block }
        ensures ended { self.old.done ≡ self.old.stream.frames → self.new.input ≡ self.old.input }
        ensures cause { HasCause (I.outside.faults self.old.input)
            (I.outside.faults self.new.input) result }
    {
        let frames = fill(
            &mut self.input,
            &self.info,
            self.done,
            self.bytes.as_mut_slice(),
            self.samples.as_mut_slice(),
        )?;
        self.done += frames;
        Ok(())
    }

    /// The samples of the block that was read last, frame by frame, the channels side by side; silence before the first.
    pub fn samples(&self) -> &[i32]
        ensures samples { result.now ≡ self.now.samples }
        ensures long { length result.now ≡ self.now.block * self.now.stream.form.channels }
        ensures range { All IsSample result.now }
    {
        self.samples.as_slice()
    }

    /// The channels of the input, 1..8, and 1 where there is none.
    pub fn channels(&self) -> u16
        ensures channels { result ≡ self.now.stream.form.channels }
        ensures some { 1 ≤ result }
        ensures few { result ≤ 8 }
    {
        self.info.channels
    }

    /// The input, as far as it was read.
    pub fn into_input(self) -> I
        ensures { result ≡ self.input }
    {
        let InputBlocks { input, .. } = self;
        input
    }
}
