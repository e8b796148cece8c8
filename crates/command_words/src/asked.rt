//! What the words of the command line ask for.

/// The words of `export S FROM CYCLES`.
#[derive(Clone, Copy, Debug)]
pub struct Export<'a> {
    /// The name of the session's file.
    pub session: &'a str,
    /// The first position, in frames, below 2^40.
    pub from: u64,
    /// 1 to 100,000.
    pub cycles: u32,
}

/// The words of `render S FROM FRAMES`.
#[derive(Clone, Copy, Debug)]
pub struct Render<'a> {
    /// The name of the session's file.
    pub session: &'a str,
    /// The first position, in frames, below 2^40.
    pub from: u64,
    /// 1 to 409,600,000.
    pub frames: u32,
}

/// How the workers of a run take turns.
#[derive(Clone, Copy, Debug)]
pub enum Mode<'a> {
    /// On one thread, in the plain order: `--serial`.
    Serial,
    /// On one thread, by 1 to 10,000 letters of `c b e g p`: `--steps T`.
    Steps(&'a str),
    /// On one thread, by letters made of this number: `--seed N`.
    Seed(u64),
    /// Each worker on a thread of its own.
    Threads {
        /// How often the process looks again before it plays on without, 1 to 100,000,000: `--patience P`.
        patience: u32,
    },
}

/// The words of `play S CYCLES`, with its options.
#[derive(Clone, Copy, Debug)]
pub struct Play<'a> {
    /// The name of the session's file.
    pub session: &'a str,
    /// 1 to 100,000.
    pub cycles: u32,
    pub mode: Mode<'a>,
}

/// The words of `verify S REPORT MASTER`.
#[derive(Clone, Copy, Debug)]
pub struct Verify<'a> {
    /// The name of the session's file.
    pub session: &'a str,
    /// The name of the report's file.
    pub report: &'a str,
    /// The name of the master's file.
    pub master: &'a str,
}

/// What the words ask for.
#[derive(Clone, Copy, Debug)]
pub enum Command<'a> {
    /// A session's file and the heads of its sources are read, and its parts are counted.
    Check {
        /// The name of the session's file.
        session: &'a str,
    },
    Render(Render<'a>),
    Export(Export<'a>),
    /// A session's file is read and written as a text of version 2.
    Migrate {
        /// The name of the session's file.
        session: &'a str,
    },
    Play(Play<'a>),
    Verify(Verify<'a>),
    /// A session is made from a number and exported in memory.
    Gen {
        /// 0 to 8,191.
        number: u32,
    },
}
