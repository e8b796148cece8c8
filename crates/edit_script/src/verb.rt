//! The commands, by what they are about.
ghost use Rattle.std.specs.Prelude.{◌≡◌, false};
ghost use Rattle.edit_script.specs.Reading.{verb_by};
ghost use Rattle.edit_script.specs.Rows.{among_rows, rows_of};

use crate::refusal::LineRefusal;

/// A command: the word that it begins with and the words that it takes. `loop` is the word of two.
#[derive(Clone, Copy)]
pub(crate) enum Verb {
    Transport(Transport),
    Strip(Strip),
    Desk(Desk),
    Region(Region),
    Blend(Blend),
    Wait,
    Sync,
}

/// What the transport is told.
#[derive(Clone, Copy)]
pub(crate) enum Transport {
    Roll,
    Stop,
    Quit,
    Record,
    Locate,
    Loop,
    LoopOff,
}

/// What is set on the strip of one route.
#[derive(Clone, Copy)]
pub(crate) enum Strip {
    Arm,
    Solo,
    Mute,
    Gain,
    Pan,
    Mode,
}

/// What is drawn on a lane, and where a route leads.
#[derive(Clone, Copy)]
pub(crate) enum Desk {
    Point,
    Unpoint,
    Connect,
    Send,
    Unsend,
}

/// Which regions a track has, and what they play where.
#[derive(Clone, Copy)]
pub(crate) enum Region {
    Add,
    Remove,
    Move,
    Trim,
}

/// How a region blends with those round it.
#[derive(Clone, Copy)]
pub(crate) enum Blend {
    Layer,
    Opaque,
    Gain,
    Fade,
    Shape,
}

// The word of each command and how many words it has in all, in the order of the table.
const ROWS: [(&[u8], u32, Verb); 29] = [
    (b"roll", 1, Verb::Transport(Transport::Roll)),
    (b"stop", 1, Verb::Transport(Transport::Stop)),
    (b"quit", 1, Verb::Transport(Transport::Quit)),
    (b"record", 2, Verb::Transport(Transport::Record)),
    (b"locate", 2, Verb::Transport(Transport::Locate)),
    (b"loop", 3, Verb::Transport(Transport::Loop)),
    (b"loop", 2, Verb::Transport(Transport::LoopOff)),
    (b"arm", 3, Verb::Strip(Strip::Arm)),
    (b"solo", 3, Verb::Strip(Strip::Solo)),
    (b"mute", 3, Verb::Strip(Strip::Mute)),
    (b"gain", 3, Verb::Strip(Strip::Gain)),
    (b"pan", 4, Verb::Strip(Strip::Pan)),
    (b"mode", 3, Verb::Strip(Strip::Mode)),
    (b"point", 4, Verb::Desk(Desk::Point)),
    (b"unpoint", 3, Verb::Desk(Desk::Unpoint)),
    (b"connect", 3, Verb::Desk(Desk::Connect)),
    (b"send", 5, Verb::Desk(Desk::Send)),
    (b"unsend", 3, Verb::Desk(Desk::Unsend)),
    (b"add", 8, Verb::Region(Region::Add)),
    (b"remove", 3, Verb::Region(Region::Remove)),
    (b"move", 4, Verb::Region(Region::Move)),
    (b"trim", 5, Verb::Region(Region::Trim)),
    (b"layer", 4, Verb::Blend(Blend::Layer)),
    (b"opaque", 4, Verb::Blend(Blend::Opaque)),
    (b"rgain", 4, Verb::Blend(Blend::Gain)),
    (b"fade", 5, Verb::Blend(Blend::Fade)),
    (b"shape", 5, Verb::Blend(Blend::Shape)),
    (b"wait", 2, Verb::Wait),
    (b"sync", 1, Verb::Sync),
];

// The command of a word among rows, in a line of so many words.
fn among(rows: &[(&[u8], u32, Verb)], first: &[u8], words: u32) -> Result<Verb, LineRefusal>
    ensures { result ≡ among_rows false first.now words (rows_of rows.now) }
{
    let mut known = false;
    for (word, width, verb) in rows {
        if *word == first {
            if *width == words {
                return Ok(*verb);
            }
            known = true;
        }
    }
    if known {
        Err(LineRefusal::Words(words))
    } else {
        Err(LineRefusal::NotCommand)
    }
}

impl Verb {
    /// The command of a word, in a line of so many words; else what is wrong of the two.
    pub(crate) fn of(first: &[u8], words: u32) -> Result<Verb, LineRefusal>
        ensures { result ≡ verb_by first.now words }
    {
        among(&ROWS, first, words)
    }
}
