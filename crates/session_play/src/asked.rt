//! What a run is asked for: an export and a play in one.
use run_world::Script;

/// The letters that a run is given before its serial rest.
#[derive(Clone, Copy, Debug, PartialEq, Eq)]
pub enum Letters<'a> {
    /// None: it is serial from the first line on.
    Absent,
    /// These, of `c b e g p`.
    Steps(&'a str),
    /// 16 for each cycle, made from this number.
    Seed(u64),
}

/// What a run is asked for.
#[derive(Clone, Copy, Debug, PartialEq, Eq)]
pub struct Request<'a> {
    /// The name of the session's file.
    pub session: &'a str,
    /// How many cycles, 1..100,000.
    pub cycles: u32,
    /// The control of an export: it records nothing, and control isn't read. With none lines are read of control.
    pub script: Option<Script>,
    pub letters: Letters<'a>,
}
