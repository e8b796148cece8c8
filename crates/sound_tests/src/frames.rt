//! Frames of the master, rendered plainly: sessions as texts over sources in memory, and what their masters hold by hand.
ghost use Rattle.std.specs.Prelude.{◌≡◌, IfSome};
ghost use Rattle.session_model.specs.Valid.{IsValid};
ghost use Rattle.session_model.specs.MemFrames.{channels_in};
ghost use Rattle.engine_model.specs.Played.{master_channels};
ghost use Rattle.offline_render.specs.Frame.{named_channels};

pub(crate) mod rows;

use offline_render::Offline;
use route_graph::order;
use rows::{LOUD, ROWS};
use ses_units::{Bits, file_sample};
use session_model::{MemFrames, MemSound, Session};
use session_toml::session_of;
use std::alloc::{AllocError, Global};

/// How the text of each session begins.
const HEAD: &str = "[session]\nversion = 1\nrate = 48000\nbits = 16\nblock = 4\ndepth = 2\n";

/// A session: the channels of its master, the keys of each track of one channel, its busses, the one sample that each
/// track's source has in all of its eight frames, and the frames of the master from place 0 on, one after another.
#[derive(Clone, Copy)]
pub(crate) struct Row {
    pub(crate) name: &'static str,
    pub(crate) channels: usize,
    tracks: &'static [&'static str],
    busses: &'static str,
    pub(crate) samples: &'static [i32],
    pub(crate) want: &'static [i32],
}

// The text of a row's session.
fn text_of(alloc: Global, row: &Row) -> Result<String, AllocError> {
    let mut text = String::new(alloc);
    write!(text, "{HEAD}channels = {}\n", row.channels)?;
    for (i, keys) in row.tracks.iter().enumerate() {
        write!(
            text,
            "[[source]]\nname = \"s{i}\"\nfile = \"s{i}.wav\"\nchannels = 1\n"
        )?;
        write!(
            text,
            "[[track]]\nname = \"t{i}\"\nchannels = 1\n{keys}\n[[track.region]]\n"
        )?;
        write!(text, "id = 1\nsource = \"s{i}\"\nlength = 8\nat = 0\n")?;
    }
    text.push_str(row.busses)?;
    Ok(text)
}

// The sources of a session, each of one sample. The calls whose numbers are listed fail.
fn sources(alloc: Global, s: &Session, samples: &[i32], fails: &[u64]) -> Option<MemFrames>
    ensures { IfSome result (λ m. channels_in m.sources ≡ named_channels s.now) }
{
    let mut list = Vec::new(alloc);
    for (i, decl) in s.sources.as_slice().iter().enumerate() {
        let sample = *samples.get(i)?;
        let frames = vec![in alloc; sample; 8 * decl.channels as usize].ok()?;
        list.push(MemSound::new(decl.channels, frames)?).ok()?;
    }
    Some(MemFrames::new(list, fails.to_vec(alloc).ok()?))
}

pub(crate) fn session(alloc: Global, row: &Row) -> Option<Session>
    ensures { IfSome result IsValid }
{
    let text = text_of(alloc, row).ok()?;
    session_of(alloc, text.as_bytes()).ok()
}

fn width(s: &Session) -> usize
    requires { IsValid s.now }
    ensures { result ≡ master_channels s.now }
{
    let last = s.routes.len() - 1;
    s.routes.as_slice()[last].channels as usize
}

// Fills `out` with the frame of a row's master at a place, where no call that is listed fails.
fn frame(alloc: Global, row: &Row, fails: &[u64], place: u64, out: &mut [i32]) -> Option<bool> {
    let s = session(alloc, row)?;
    let Ok(by) = order(alloc, &s) else {
        return None;
    };
    let mut frames = sources(alloc, &s, row.samples, fails)?;
    let mut offline = Offline::new(alloc, &s).ok()?;
    if out.len() != width(&s) || place > 99 {
        return None;
    }
    Some(offline.frame(&s, &by, &mut frames, place, out).is_ok())
}

// Whether a row's master holds what is wanted.
fn is_heard(alloc: Global, row: &Row) -> bool {
    let mut room = [7; 2];
    let n = row.channels.clamp(1, 2);
    for (place, want) in row.want.chunks(n).enumerate() {
        let out = &mut room[..n];
        if frame(alloc, row, &[], place as u64, out) != Some(true) || *out != *want {
            return false;
        }
    }
    true
}

#[test]
fn a_session_is_heard_at_its_master(rt: HostRuntime) {
    for row in ROWS {
        assert!(rt; is_heard(rt.alloc(), row), "{}", row.name);
    }
}

#[test]
fn two_loud_tracks_are_bounded_in_the_file(rt: HostRuntime) {
    let mut out = [7];
    assert!(rt; frame(rt.alloc(), &LOUD, &[], 0, &mut out) == Some(true));
    assert!(rt; out[0] == 15_360_000 && file_sample(out[0], Bits::B16) == 32_767);
}

#[test]
fn a_frame_fails_where_a_read_fails(rt: HostRuntime) {
    let mut out = [7];
    assert!(rt; frame(rt.alloc(), &LOUD, &[2], 0, &mut out) == Some(false));
    assert!(rt; frame(rt.alloc(), &LOUD, &[3], 0, &mut out) == Some(true));
}
