//! What the workers of a run tell each other beside the rings: how far the process is, and that there may be something to do. These are
//! hints. No clause rests on one, and a bell that is lost costs a rest, since each rest ends by itself.
#![tactic(auto)]

use std::sync::Wait;
use std::sync::atomic::{AtomicU64, Ordering};
use std::thread::Parker;
use std::time::Duration;

/// How long a worker rests at most where nothing wakes it, in milliseconds (measured: docs/PERFORMANCE.md).
const REST: u64 = 10;

/// The bells of butler and control, and how far the process is.
#[derive(Drop)]
pub struct Bells {
    // twice the entries that were made, and one more once no further one comes
    progress: AtomicU64,
    butler: Parker,
    control: Parker,
    rest: u64,
}

/// How far the process is, as it said last.
#[derive(Clone, Copy, Debug, PartialEq, Eq)]
pub struct HowFar {
    /// How many entries it had made.
    pub entries: u64,
    /// Whether it makes no further one.
    pub ended: bool,
}

impl Bells {
    /// Nobody rests, and no entry was made; a rest is of `REST` milliseconds.
    pub fn new() -> Bells {
        Bells::resting(REST)
    }

    /// The same, with rests of so many milliseconds.
    pub fn resting(rest: u64) -> Bells {
        Bells {
            progress: AtomicU64::new(0),
            butler: Parker::new(),
            control: Parker::new(),
            rest,
        }
    }

    /// The process has made so many entries: butler and control are woken.
    pub fn entered(&self, entries: u32) {
        self.progress
            .store(u64::from(entries) * 2, Ordering::Release);
        self.butler.unpark();
        self.control.unpark();
    }

    /// The process makes no further entry after so many: butler and control are woken.
    pub fn ended(&self, entries: u32) {
        self.progress
            .store(u64::from(entries) * 2 + 1, Ordering::Release);
        self.butler.unpark();
        self.control.unpark();
    }

    /// There may be something to do for the butler.
    pub fn wake_butler(&self) {
        self.butler.unpark();
    }

    /// The butler rests, until it is woken or a rest is over.
    pub fn rest_butler<R: Wait>(&self, rt: &R) {
        self.butler
            .park_timeout(rt, Duration::from_millis(self.rest));
    }

    /// Control rests, until it is woken or a rest is over.
    pub fn rest_control<R: Wait>(&self, rt: &R) {
        self.control
            .park_timeout(rt, Duration::from_millis(self.rest));
    }

    /// How far the process is, as it said last.
    pub fn progress(&self) -> HowFar {
        let word = self.progress.load(Ordering::Acquire);
        HowFar {
            entries: word / 2,
            ended: word % 2 == 1,
        }
    }
}
