//! A run that is ready to begin.
use audio_source::Sources;
use edition_log::Edition;
use ses_io::World;
use wav_codec::WavInfo;

/// The control of an export, in place of control lines: locate there, and roll.
#[derive(Clone, Copy, Debug, PartialEq, Eq)]
pub struct Script {
    /// The position, in frames.
    pub from: u64,
}

/// All that a run begins with.
#[derive(Drop)]
pub struct Opened<M, I, C, W, O> {
    pub world: World<M, I, C, W, O>,
    /// Edition 0 of the session.
    pub edition: Edition,
    /// Opened for the session's sources.
    pub sources: Sources,
    /// What the head of the input said, which was read; none where the input is empty.
    pub form: Option<WavInfo>,
    /// How many cycles are asked for, 1..100,000.
    pub cycles: u32,
    /// The control of an export; else the world's control is read.
    pub script: Option<Script>,
}
