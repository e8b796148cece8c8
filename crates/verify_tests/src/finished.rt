//! What a verify is given: a finished run, and its damage.
use run_rows::{BASE, EIGHT};

/// The sound of a master.
#[derive(Clone, Copy)]
pub(crate) enum Sound {
    /// Samples of a file of 16 bits, one channel and 48,000 frames a second.
    Samples(&'static [u16]),
    /// All bytes of another file.
    Bytes(&'static [u8]),
}

/// A run that has ended.
#[derive(Clone, Copy)]
pub(crate) struct Finished {
    /// The text of the session's file.
    pub session: &'static str,
    /// What out got.
    pub report: &'static str,
    pub master: Sound,
}

/// What happened to it since.
#[derive(Clone, Copy)]
pub(crate) enum Damage {
    Nothing,
    /// This line of the report, from 1, says this.
    Line(usize, &'static str),
    /// This byte of the master, from 0, is this.
    Byte(usize, u8),
    /// So many bytes of the master stand.
    Cut(usize),
    /// These bytes follow the master.
    More(&'static [u8]),
    /// So many bytes of the report stand.
    CutReport(usize),
    NoReport,
    NoMaster,
    NoSession,
    NoSource,
    /// Reads of this file fail from a place on.
    Reads(&'static str, u64),
}

/// A verify, and how it ends.
#[derive(Clone, Copy)]
pub(crate) struct Check {
    /// What a failed test calls it.
    pub name: &'static str,
    pub run: Finished,
    pub damage: Damage,
    /// The number of the status.
    pub status: u8,
    /// What out gets.
    pub out: &'static str,
}

/// A block, then a locate to the second one, and a quit.
pub(crate) const QUIT: Finished = Finished {
    session: BASE,
    report: "ok 1
done
ok 2
done
ok 3
report 1
format 48000 16 1 4 2
edit 1 roll
edit 2 locate 4
edit 3 quit
cycle 1 1 1 rolling 0 0 h0/-
cycle 2 2 2 rolling 1 0 h0/-
end 2
",
    master: Sound::Samples(EIGHT),
};

/// A quit at once.
pub(crate) const AT_ONCE: Finished = Finished {
    session: BASE,
    report: "ok 1
report 1
format 48000 16 1 4 2
edit 1 quit
end 0
",
    master: Sound::Samples(&[0; 8]),
};

/// A block, and a quit before the second one.
pub(crate) const ONE_OF_TWO: Finished = Finished {
    session: BASE,
    report: "ok 1
done
ok 2
report 1
format 48000 16 1 4 2
edit 1 roll
edit 2 quit
cycle 1 1 1 rolling 0 0 h0/-
end 1
",
    master: Sound::Samples(&[100, 200, 300, 400, 0, 0, 0, 0]),
};

/// A take of two blocks.
pub(crate) const TAKE: Finished = Finished {
    session: BASE,
    report: "ok 1
ok 2
ok 3
report 1
format 48000 16 1 4 2
edit 1 arm t on
edit 2 record on
edit 3 roll
cycle 1 3 3 rolling 0 0 h0/t1.0
cycle 2 3 3 rolling 0 1 h0/t1.1
end 2
",
    master: Sound::Samples(EIGHT),
};

/// The region is made half as loud while it plays.
pub(crate) const SOFTER: Finished = Finished {
    session: BASE,
    report: "report 1
format 48000 16 1 4 2
edit 1 roll
edit 2 rgain t 1 32768
cycle 1 1 1 rolling 0 0 h0/-
cycle 2 2 2 rolling 0 1 h2/-
end 2
",
    master: Sound::Samples(&[100, 200, 300, 400, 250, 300, 350, 400]),
};

const TWO_TRACKS: &str = r#"[session]
version = 1
rate = 48000
bits = 16
channels = 1
block = 4
depth = 2

[[source]]
name = "a"
file = "a.wav"
channels = 1

[[track]]
name = "t"
channels = 1

[[track.region]]
id = 1
source = "a"
length = 8
at = 0

[[track]]
name = "u"
channels = 1

[[track.region]]
id = 1
source = "a"
length = 8
at = 0
"#;

/// Two tracks of one sound, of which the second is made silent while it plays.
pub(crate) const TWO: Finished = Finished {
    session: TWO_TRACKS,
    report: "report 1
format 48000 16 1 4 2
edit 1 roll
edit 2 rgain u 1 0
cycle 1 1 1 rolling 0 0 h0/- h0/-
cycle 2 2 2 rolling 0 1 h0/- h2/-
end 2
",
    master: Sound::Samples(&[200, 400, 600, 800, 500, 600, 700, 800]),
};

const NARROW: &str = r#"[session]
version = 1
rate = 48000
bits = 24
channels = 1
block = 1
depth = 2

[[source]]
name = "a"
file = "a.wav"
channels = 1

[[track]]
name = "t"
channels = 1

[[track.region]]
id = 1
source = "a"
length = 8
at = 0
"#;

/// Three blocks of a frame of 24 bits, so that a pad byte follows them.
pub(crate) const ODD: Finished = Finished {
    session: NARROW,
    report: "report 1
format 48000 24 1 1 3
edit 1 locate 0
edit 2 roll
cycle 1 2 2 rolling 1 0 h0/-
cycle 2 2 2 rolling 1 1 h0/-
cycle 3 2 2 rolling 1 2 h0/-
end 3
",
    master: Sound::Bytes(&[
        b'R', b'I', b'F', b'F', 46, 0, 0, 0, b'W', b'A', b'V', b'E', b'f', b'm', b't', b' ', 16, 0,
        0, 0, 1, 0, 1, 0, 0x80, 0xbb, 0, 0, 0x80, 0x32, 2, 0, 3, 0, 24, 0, b'd', b'a', b't', b'a',
        9, 0, 0, 0, 0, 100, 0, 0, 200, 0, 0, 44, 1, 0,
    ]),
};
