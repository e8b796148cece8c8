//! What a run is given, in memory.
use ses_io::{MemMedia, MemSink, MemSource, NoMemory, World};
use std::alloc::Global;

/// The name of the session's file.
pub(crate) const SESSION: &str = "s.toml";

/// The name of its source's file.
pub(crate) const SOURCE: &str = "a.wav";

/// A world in memory.
pub(crate) type Memory = World<MemMedia, MemSource, MemSource, MemSink, MemSink>;

/// Of each object at most one call fails: its number, from 1.
#[derive(Clone, Copy, Debug, PartialEq, Eq)]
pub struct Fails {
    /// A call of the media, of any kind.
    pub media: Option<u64>,
    /// A read of the input.
    pub input: Option<u64>,
    /// A read of control.
    pub control: Option<u64>,
    /// A write of the master.
    pub master: Option<u64>,
    /// A write of a reply.
    pub out: Option<u64>,
}

/// Nothing fails.
pub const NOTHING: Fails = Fails {
    media: None,
    input: None,
    control: None,
    master: None,
    out: None,
};

/// A run.
#[derive(Drop)]
pub struct Case {
    /// The text of the session's file.
    pub session: Vec<u8>,
    /// The file of its source.
    pub source: Vec<u8>,
    /// The input: a file, or nothing.
    pub input: Vec<u8>,
    /// The samples of the input.
    pub heard: Vec<u16>,
    /// Control's lines.
    pub control: Vec<u8>,
    /// How many cycles are asked, 1 to 100,000.
    pub cycles: u32,
    /// How often the process looks for a piece and for an allowance.
    pub patience: u64,
    /// What fails.
    pub fails: Fails,
}

fn plan(alloc: Global, call: Option<u64>) -> Result<Vec<u64>, NoMemory> {
    match call {
        Some(number) => Ok([number].to_vec(alloc)?),
        None => Ok(Vec::new(alloc)),
    }
}

/// The files of the session.
pub(crate) fn media_of(alloc: Global, case: &Case) -> Result<MemMedia, NoMemory> {
    let mut media = MemMedia::new(alloc);
    media.put(SESSION, case.session.as_slice().to_vec(alloc)?)?;
    media.put(SOURCE, case.source.as_slice().to_vec(alloc)?)?;
    Ok(media)
}

/// The world of a run, of which this fails.
pub(crate) fn world_of(alloc: Global, case: &Case, fails: &Fails) -> Result<Memory, NoMemory> {
    let mut media = media_of(alloc, case)?;
    if let Some(number) = fails.media {
        media.fail_call(number)?;
    }
    let input = case.input.as_slice().to_vec(alloc)?;
    let control = case.control.as_slice().to_vec(alloc)?;
    Ok(World {
        media,
        input: MemSource::new(input, plan(alloc, fails.input)?),
        control: MemSource::new(control, plan(alloc, fails.control)?),
        master: MemSink::new(alloc, plan(alloc, fails.master)?),
        out: MemSink::new(alloc, plan(alloc, fails.out)?),
    })
}

/// A run of this session under these lines, in which nothing fails.
pub fn case_by(
    alloc: Global,
    session: &str,
    source: &[u16],
    heard: &[u16],
    control: &str,
    cycles: u32,
    patience: u64,
) -> Result<Case, NoMemory> {
    let input = if heard.is_empty() {
        Vec::new(alloc)
    } else {
        run_rows::wav(alloc, heard)?
    };
    Ok(Case {
        session: session.as_bytes().to_vec(alloc)?,
        source: run_rows::wav(alloc, source)?,
        input,
        heard: heard.to_vec(alloc)?,
        control: control.as_bytes().to_vec(alloc)?,
        cycles,
        patience,
        fails: NOTHING,
    })
}
