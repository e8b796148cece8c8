//! Flags of two threads that run side by side: each sets its own, and waits until it sees the other's.
use std::alloc::Global;
use std::hint::spin_loop;
use std::sync::Arc;
use std::sync::atomic::{AtomicBool, Ordering};

// More turns than are waited where the other thread runs.
const TURNS: u64 = 1_000_000_000;

/// Whose flag it is.
#[derive(Clone, Copy, PartialEq, Eq)]
pub(crate) enum Flag {
    /// The butler's.
    One,
    /// The process's.
    Two,
}

/// The two flags, and whether each was seen by the thread that waited for it.
#[derive(Drop)]
pub(crate) struct Flags {
    one: AtomicBool,
    two: AtomicBool,
    saw_one: AtomicBool,
    saw_two: AtomicBool,
}

impl Flags {
    /// None is set, and none was seen.
    pub(crate) fn new() -> Flags {
        Flags {
            one: AtomicBool::new(false),
            two: AtomicBool::new(false),
            saw_one: AtomicBool::new(false),
            saw_two: AtomicBool::new(false),
        }
    }

    /// Sets this flag.
    pub(crate) fn set(&self, flag: Flag) {
        match flag {
            Flag::One => self.one.store(true, Ordering::Release),
            Flag::Two => self.two.store(true, Ordering::Release),
        }
    }

    // Whether this flag is set.
    fn is_set(&self, flag: Flag) -> bool {
        match flag {
            Flag::One => self.one.load(Ordering::Acquire),
            Flag::Two => self.two.load(Ordering::Acquire),
        }
    }

    // Notes that this flag was seen.
    fn note_seen(&self, flag: Flag) {
        match flag {
            Flag::One => self.saw_one.store(true, Ordering::Release),
            Flag::Two => self.saw_two.store(true, Ordering::Release),
        }
    }

    /// Waits until this flag is set, and notes that it was seen. After many turns it gives up.
    pub(crate) fn wait_for(&self, flag: Flag) {
        for _turn in 0..TURNS {
            if self.is_set(flag) {
                self.note_seen(flag);
                return;
            }
            spin_loop();
        }
    }

    /// Whether each thread saw the other's flag.
    pub(crate) fn both_seen(&self) -> bool {
        self.saw_one.load(Ordering::Acquire) && self.saw_two.load(Ordering::Acquire)
    }
}

/// One thread's part: once it sets its own flag and waits for the other.
#[derive(Drop)]
pub(crate) struct Meeting {
    flags: Arc<Flags, Global>,
    own: Flag,
    other: Flag,
    met: bool,
}

impl Meeting {
    /// The butler's part.
    pub(crate) fn of_butler(flags: Arc<Flags, Global>) -> Meeting {
        Meeting {
            flags,
            own: Flag::One,
            other: Flag::Two,
            met: false,
        }
    }

    /// The process's part.
    pub(crate) fn of_process(flags: Arc<Flags, Global>) -> Meeting {
        Meeting {
            flags,
            own: Flag::Two,
            other: Flag::One,
            met: false,
        }
    }

    /// Sets its own flag and waits for the other, the first time that it is called.
    pub(crate) fn meet(&mut self) {
        if self.met {
            return;
        }
        self.met = true;
        self.flags.set(self.own);
        self.flags.wait_for(self.other);
    }
}
