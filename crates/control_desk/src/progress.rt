//! What control sees of a run, and what it waits for.
ghost use Rattle.std.specs.Prelude.{◌≡◌};
ghost use Rattle.control_desk.specs.Seen.{awaited_of, is_settled_by, is_over_by, reply_by};
ghost use Rattle.control_desk.specs.Texts.{reply_of};

use crate::reply::Reply;

/// What control sees of a run.
#[derive(Clone, Copy, Debug, PartialEq, Eq)]
pub struct Progress {
    /// How many edits were accepted so far.
    pub edits: u32,
    /// How many entries were made so far, at most 100,000.
    pub entries: u32,
    /// The edition that the last entry has settled.
    pub settled: Option<u32>,
    /// No further cycle can run.
    pub played_out: bool,
}

/// What control waits for.
#[derive(Clone, Copy, Debug, PartialEq, Eq)]
pub enum Awaited {
    /// So many entries.
    Entries(u32),
    /// An entry that has this edition settled.
    SettledIn(u32),
}

impl Progress {
    // Whether the last entry has an edition settled.
    fn has_settled(&self, edition: u32) -> bool
        ensures { result ≡ is_settled_by self.now.settled edition }
    {
        match self.settled {
            Some(settled) => edition <= settled,
            None => false,
        }
    }

    /// Whether what is waited for has come, or can't come any more.
    pub fn is_over(&self, awaited: Awaited) -> bool
        ensures { result ≡ is_over_by self.now (awaited_of awaited) }
    {
        let has_come = match awaited {
            Awaited::Entries(n) => n <= self.entries,
            Awaited::SettledIn(edition) => self.has_settled(edition),
        };
        has_come || self.played_out
    }

    /// What is answered once it is over.
    pub(crate) fn reply(&self, awaited: Awaited) -> Reply
        ensures { reply_of result ≡ reply_by self.now (awaited_of awaited) }
    {
        match awaited {
            Awaited::Entries(_) => Reply::Done,
            Awaited::SettledIn(edition) if self.has_settled(edition) => {
                Reply::Synced(edition, self.entries)
            }
            Awaited::SettledIn(edition) => Reply::NotSynced(edition),
        }
    }
}
