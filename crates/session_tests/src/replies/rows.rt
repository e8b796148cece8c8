//! Lines of control, what is seen of a run at each of its letters, and what stands in out then.

/// A mono track into the master.
pub(crate) const TRACK: &str = r#"
[session]
version = 1
rate = 48000
bits = 16
channels = 1
block = 4
depth = 2

[[source]]
name = "a"
file = "a.wav"
channels = 1

[[track]]
name = "t"
channels = 1
input = 0

[[track.region]]
id = 1
source = "a"
length = 8
at = 0
"#;

/// Busses of which the second leads into the first.
pub(crate) const BUSSES: &str = r#"
[session]
version = 1
rate = 48000
bits = 16
channels = 1
block = 4
depth = 2

[[bus]]
name = "b1"
channels = 1

[[bus]]
name = "b2"
channels = 1
out = "b1"
"#;

/// Of a run at a letter of control: the entries, what the last has settled, and whether no cycle can follow.
pub(crate) type Seen = (u32, Option<u32>, bool);

#[derive(Clone, Copy)]
pub(crate) struct Row {
    pub(crate) busses: bool,
    pub(crate) lines: &'static str,
    pub(crate) letters: &'static [Seen],
    pub(crate) out: &'static str,
    pub(crate) ended: bool,
    /// Which reads and writes fail, as numbers of calls.
    pub(crate) bad_reads: &'static [u64],
    pub(crate) bad_writes: &'static [u64],
    /// Whether a read failed, a write failed, and all bytes were read that may be.
    pub(crate) failed: (bool, bool, bool),
}

fn plain(lines: &'static str, letters: &'static [Seen], out: &'static str) -> Row {
    Row {
        busses: false,
        lines,
        letters,
        out,
        ended: true,
        bad_reads: &[],
        bad_writes: &[],
        failed: (false, false, false),
    }
}

// before the first cycle; after one, and after two, which are all
const NONE: Seen = (0, None, false);

const ONE: Seen = (1, Some(1), false);

const TWO: Seen = (2, Some(2), true);

pub(crate) fn rows() -> [Row; 10] {
    [
        // a link that would close a cycle
        Row {
            busses: true,
            ..plain("connect b1 b2", &[NONE, NONE], "refused cycle b1\n")
        },
        // a wait, a locate, a wait and a quit: each wait is over one cycle later
        plain(
            "roll\nwait 1\nlocate 4\nwait 1\nquit\n",
            &[NONE, NONE, NONE, ONE, ONE, ONE, TWO],
            "ok 1\ndone\nok 2\ndone\nok 3\n",
        ),
        // a place that is too far, by one frame
        plain(
            "add t 9 a 0 2 1099511627775 0\nadd t 9 a 0 1 1099511627775 0\n",
            &[NONE, NONE, NONE],
            "refused far 1099511627775\nok 1\n",
        ),
        // a sync that comes, and one that can't come any more
        plain(
            "roll\nsync\nstop\nsync\n",
            &[
                NONE,
                NONE,
                (1, Some(1), true),
                (1, Some(1), true),
                (1, Some(1), true),
            ],
            "ok 1\nsynced 1 1\nok 2\nnot synced 2\n",
        ),
        // after a quit no line is carried out
        plain("quit\nroll\nsync\n", &[NONE, NONE, NONE], "ok 1\n"),
        // a comment, an empty line and one that isn't read
        plain(
            "# take two\n\r\n \t \nrolling\nroll",
            &[NONE, NONE, NONE, NONE, NONE, NONE],
            "refused not-command\nok 1\n",
        ),
        // what is awaited when the letters end is not answered
        Row {
            ended: false,
            ..plain("wait 2\nroll\n", &[NONE, ONE, ONE], "")
        },
        // a wait for no entry is no line, and the next is carried out
        plain(
            "wait 0\nroll\n",
            &[NONE, NONE, NONE],
            "refused number 2\nok 1\n",
        ),
        // the first read fails: no line is carried out
        Row {
            bad_reads: &[1],
            failed: (true, false, false),
            ..plain("roll\n", &[NONE, NONE], "")
        },
        // the second write fails: the first reply stands, and the edit is the last
        Row {
            bad_writes: &[2],
            failed: (false, true, false),
            ..plain("roll\nstop\nroll\n", &[NONE, NONE, NONE], "ok 1\n")
        },
    ]
}
