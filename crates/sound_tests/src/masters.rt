//! Files of a master, rendered offline: bytes by hand, and reads and writes that fail on the way.
ghost use Rattle.std.specs.Prelude.{◌≡◌, IfSome};
ghost use Rattle.session_model.specs.Valid.{IsValid};
ghost use Rattle.session_model.specs.MemFrames.{channels_in};
ghost use Rattle.offline_render.specs.Frame.{named_channels};

use master_render::{RenderFault, render_master};
use ses_io::MemSink;
use session_model::{MemFrames, MemSound, Session};
use session_toml::session_of;
use std::alloc::Global;

/// A session of one mono source, whose file samples are 100, 200, .. 800, and of one track that plays all of it.
const THROUGH_16: &str = r#"[session]
version = 1
rate = 48000
bits = 16
block = 4
depth = 2
channels = 1
[[source]]
name = "a"
file = "a.wav"
channels = 1
[[track]]
name = "t"
channels = 1
[[track.region]]
id = 1
source = "a"
length = 8
at = 0
"#;

/// The same with a master of 24 bits.
const THROUGH_24: &str = r#"[session]
version = 1
rate = 48000
bits = 24
block = 4
depth = 2
channels = 1
[[source]]
name = "a"
file = "a.wav"
channels = 1
[[track]]
name = "t"
channels = 1
[[track.region]]
id = 1
source = "a"
length = 8
at = 0
"#;

// 300, 400 and 500: a header of 44 bytes, and 6 bytes of sound.
const THREE: [u8; 50] = [
    b'R', b'I', b'F', b'F', 42, 0, 0, 0, b'W', b'A', b'V', b'E', b'f', b'm', b't', b' ', 16, 0, 0,
    0, 1, 0, 1, 0, 0x80, 0xbb, 0, 0, 0, 0x77, 1, 0, 2, 0, 16, 0, b'd', b'a', b't', b'a', 6, 0, 0,
    0, 0x2c, 1, 0x90, 1, 0xf4, 1,
];

// The same in 24 bits: 9 bytes of sound, and a pad byte.
const THREE_WIDE: [u8; 54] = [
    b'R', b'I', b'F', b'F', 46, 0, 0, 0, b'W', b'A', b'V', b'E', b'f', b'm', b't', b' ', 16, 0, 0,
    0, 1, 0, 1, 0, 0x80, 0xbb, 0, 0, 0x80, 0x32, 2, 0, 3, 0, 24, 0, b'd', b'a', b't', b'a', 9, 0,
    0, 0, 0, 0x2c, 1, 0, 0x90, 1, 0, 0xf4, 1, 0,
];

/// How a rendering ended, and what its sink holds.
#[derive(Drop)]
struct Ended {
    result: Result<(), RenderFault>,
    master: MemSink,
}

fn session(alloc: Global, text: &str) -> Option<Session>
    ensures { IfSome result IsValid }
{
    session_of(alloc, text.as_bytes()).ok()
}

// The sources of a session, each with the same eight samples. The calls whose numbers are listed fail.
fn reader(alloc: Global, s: &Session, fails: &[u64]) -> Option<MemFrames>
    ensures { IfSome result (λ m. channels_in m.sources ≡ named_channels s.now) }
{
    let mut list = Vec::new(alloc);
    for decl in s.sources.as_slice() {
        let samples = [
            25_600, 51_200, 76_800, 102_400, 128_000, 153_600, 179_200, 204_800,
        ];
        let frames = Vec::from_array(alloc, samples).ok()?;
        list.push(MemSound::new(decl.channels, frames)?).ok()?;
    }
    Some(MemFrames::new(list, fails.to_vec(alloc).ok()?))
}

// Three frames from place 2 on. The reads and the writes whose numbers are listed fail.
fn three_frames(alloc: Global, text: &str, reads: &[u64], writes: &[u64]) -> Option<Ended> {
    let s = session(alloc, text)?;
    let mut frames = reader(alloc, &s, reads)?;
    let mut master = MemSink::new(alloc, writes.to_vec(alloc).ok()?);
    let result = render_master(alloc, &s, 2, 3, &mut frames, &mut master);
    Some(Ended { result, master })
}

// Whether a rendering ends so, and its sink then holds these bytes.
fn ends(
    alloc: Global,
    text: &str,
    reads: &[u64],
    writes: &[u64],
    want: Result<(), RenderFault>,
    bytes: &[u8],
) -> bool {
    match three_frames(alloc, text, reads, writes) {
        Some(ended) => ended.result == want && *ended.master.bytes() == *bytes,
        None => false,
    }
}

#[test]
fn three_frames_are_a_file_of_50_bytes(rt: HostRuntime) {
    assert!(rt; ends(rt.alloc(), THROUGH_16, &[], &[], Ok(()), &THREE));
}

#[test]
fn an_odd_number_of_bytes_is_padded(rt: HostRuntime) {
    assert!(rt; ends(rt.alloc(), THROUGH_24, &[], &[], Ok(()), &THREE_WIDE));
}

#[test]
fn the_second_read_fails(rt: HostRuntime) {
    let fault = Err(RenderFault::ReadFault);
    assert!(rt; ends(rt.alloc(), THROUGH_16, &[2], &[], fault, &THREE[..44]));
}

#[test]
fn the_header_or_the_pad_byte_is_not_taken(rt: HostRuntime) {
    let fault = Err(RenderFault::MasterFault);
    assert!(rt; ends(rt.alloc(), THROUGH_24, &[], &[1], fault, &[]));
    assert!(rt; ends(rt.alloc(), THROUGH_24, &[], &[3], fault, &THREE_WIDE[..53]));
}
