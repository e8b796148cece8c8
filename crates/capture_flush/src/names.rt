//! The names of take files.
ghost use Rattle.std.specs.Prelude.{◌≡◌, ◌++◌, codes, decimal};

use arrayvec::ArrayString;
use itoa::Buffer;
use ses_units::Name;

/// The name of a take file: how the names of a session's takes begin, the track's name, and the take's number.
pub(crate) fn file_name(takes: &Name, track: &Name, take: u32) -> ArrayString<96>
    ensures { result.bytes ≡ takes.now ++ codes "-" ++ track.now ++ codes "-" ++ decimal take
        ++ codes ".wav" }
{
    let mut text = ArrayString::new();
    text.push_str(takes.as_str());
    text.push_str("-");
    text.push_str(track.as_str());
    text.push_str("-");
    text.push_str(Buffer::new().format(take));
    text.push_str(".wav");
    text
}
