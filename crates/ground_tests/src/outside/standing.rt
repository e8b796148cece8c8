//! What a world on real files leaves alone: what it reads, what lies elsewhere, and what other programs changed.
mod parts;

use parts::Deed::{Find, HardLink, Link, Miss, Put, Remove, Touch};
use parts::Step::{Append, Listen, Master, Other, Over, Read};
use parts::{Parts, Step};
use ses_io::Failed;
use std::{env, fs, process};

/// A source by the master's name.
const BY_NAME: &[Step] = &[
    Other("device-out.wav", Put(b"held")),
    Read("device-out.wav"),
    Master(b"new", Err(Failed)),
    Master(b"new", Err(Failed)),
    Other("device-out.wav", Find(b"held")),
];

/// The master's name is a link to what was read, and what was read is a link to the master.
const BY_LINK: &[Step] = &[
    Other("a.wav", Put(b"held")),
    Other("device-out.wav", Link("a.wav")),
    Read("a.wav"),
    Master(b"new", Err(Failed)),
    Other("a.wav", Find(b"held")),
];

const BY_LINK_BACK: &[Step] = &[
    Other("device-out.wav", Put(b"held")),
    Other("s.toml", Link("device-out.wav")),
    Read("s.toml"),
    Master(b"new", Err(Failed)),
    Other("device-out.wav", Find(b"held")),
];

const BY_HARD_LINK: &[Step] = &[
    Other("a.wav", Put(b"held")),
    Other("device-out.wav", HardLink("a.wav")),
    Read("a.wav"),
    Master(b"new", Err(Failed)),
    Other("a.wav", Find(b"held")),
];

/// The input is the master.
const BY_INPUT: &[Step] = &[
    Other("device-out.wav", Put(b"held")),
    Other("device-in.wav", Link("device-out.wav")),
    Listen,
    Master(b"new", Err(Failed)),
    Other("device-out.wav", Find(b"held")),
];

/// What wasn't read is written over, by its name and by a link that stays in the folder.
const UNREAD: &[Step] = &[
    Other("a.wav", Put(b"held")),
    Other("device-out.wav", Put(b"older")),
    Read("a.wav"),
    Master(b"new", Ok(3)),
    Other("device-out.wav", Find(b"new")),
    Other("a.wav", Find(b"held")),
];

const UNREAD_BY_LINK: &[Step] = &[
    Other("a.wav", Put(b"held")),
    Other("b.wav", Put(b"older")),
    Other("device-out.wav", Link("b.wav")),
    Read("a.wav"),
    Master(b"new", Ok(3)),
    Other("b.wav", Find(b"new")),
];

/// Links out of the folder, to nothing, and to a device.
const LINK_OUT: &[Step] = &[
    Other("../out.wav", Put(b"held")),
    Other("device-out.wav", Link("../out.wav")),
    Master(b"new", Err(Failed)),
    Other("../out.wav", Find(b"held")),
];

const LINK_TO_NOTHING: &[Step] = &[
    Other("device-out.wav", Link("a.wav")),
    Master(b"new", Err(Failed)),
    Other("a.wav", Miss),
];

const LINK_TO_DEVICE: &[Step] = &[
    Other("device-out.wav", Link("/dev/null")),
    Master(b"new", Ok(3)),
    Master(b"more", Ok(4)),
];

/// A take is made where nothing is, and its head is written into it.
const TAKE: &[Step] = &[
    Append("t-1.wav", b"", Ok(0)),
    Append("t-1.wav", b"head", Ok(4)),
    Append("t-1.wav", b"sound", Ok(5)),
    Over("t-1.wav", 0, b"HEAD", Ok(4)),
    Over("t-1.wav", 6, b"abcd", Err(Failed)),
    Append("t-1.wav", b"!", Ok(1)),
    Other("t-1.wav", Find(b"HEADsound!")),
];

const TAKE_WHERE_A_FILE_IS: &[Step] = &[
    Other("t-1.wav", Put(b"held")),
    Append("t-1.wav", b"new", Err(Failed)),
    Over("t-1.wav", 0, b"new", Err(Failed)),
    Other("t-1.wav", Find(b"held")),
];

const TAKE_WHERE_A_LINK_IS: &[Step] = &[
    Other("t-1.wav", Link("a.wav")),
    Append("t-1.wav", b"new", Err(Failed)),
    Other("a.wav", Miss),
];

/// Another program writes to a take, takes it away, or has its name lead elsewhere: it is left alone from then on.
const TAKE_TOUCHED: &[Step] = &[
    Append("t-1.wav", b"head", Ok(4)),
    Other("t-1.wav", Touch),
    Append("t-1.wav", b"new", Err(Failed)),
    Over("t-1.wav", 0, b"HEAD", Err(Failed)),
    Other("t-1.wav", Find(b"head!")),
    Other("t-1.wav", Put(b"head")),
    Append("t-1.wav", b"new", Err(Failed)),
    Other("t-1.wav", Find(b"head")),
];

const TAKE_REMOVED: &[Step] = &[
    Append("t-1.wav", b"head", Ok(4)),
    Other("t-1.wav", Remove),
    Over("t-1.wav", 0, b"HEAD", Err(Failed)),
    Append("t-1.wav", b"new", Err(Failed)),
    Other("t-1.wav", Miss),
];

const TAKE_LED_ELSEWHERE: &[Step] = &[
    Append("t-1.wav", b"head", Ok(4)),
    Other("b.wav", HardLink("t-1.wav")),
    Other("t-1.wav", Remove),
    Other("t-1.wav", Link("b.wav")),
    Over("t-1.wav", 0, b"HEAD", Err(Failed)),
    Append("t-1.wav", b"new", Err(Failed)),
    Other("b.wav", Find(b"head")),
];

const ALL: &[&[Step]] = &[
    BY_NAME,
    BY_LINK,
    BY_LINK_BACK,
    BY_HARD_LINK,
    BY_INPUT,
    UNREAD,
    UNREAD_BY_LINK,
    LINK_OUT,
    LINK_TO_NOTHING,
    LINK_TO_DEVICE,
    TAKE,
    TAKE_WHERE_A_FILE_IS,
    TAKE_WHERE_A_LINK_IS,
    TAKE_TOUCHED,
    TAKE_REMOVED,
    TAKE_LED_ELSEWHERE,
];

// Whether each step is done as it says, by the parts of a world of their own.
fn goes(rt: HostRuntime, folder: &str, steps: &[Step]) -> bool {
    let Ok(mut parts) = Parts::new(rt, folder) else {
        return false;
    };
    for step in steps {
        if !parts.does(step) {
            return false;
        }
    }
    true
}

// Whether each list goes in a folder of its own, which lies in another and is taken away with it.
fn all_go(rt: HostRuntime, path: &str) -> bool {
    let Ok(folder) = format!(in rt.alloc(); "{path}/folder") else {
        return false;
    };
    for steps in ALL {
        let made = fs::create_dir(&rt, path).is_ok()
            && fs::create_dir(&rt, folder.as_str()).is_ok();
        let right = made && goes(rt, folder.as_str(), steps);
        let gone = fs::remove_dir_all(&rt, path).is_ok();
        if !right || !gone {
            return false;
        }
    }
    true
}

fn temporary_go(rt: HostRuntime) -> bool {
    let id = process::id(rt.process());
    match env::temp_dir(&rt) {
        Ok(temp) => match format!(in rt.alloc(); "{}/ground_tests-standing-{id}", temp.as_str()) {
            Ok(path) => all_go(rt, path.as_str()),
            Err(_) => false,
        },
        Err(_) => false,
    }
}

#[test]
fn what_is_read_lies_elsewhere_or_was_changed_is_left_alone(rt: HostRuntime) {
    assert!(rt; temporary_go(rt));
}
