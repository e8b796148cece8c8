//! The channels of a track are picked out of a block of the input, frame by frame.
ghost use Rattle.std.specs.Prelude.{◌≡◌, ◌+◌, ◌-◌, ◌*◌, ◌^◌, ◌<◌, ◌≤◌, length};
ghost use Rattle.session_model.specs.Formed.{channels_at};
ghost use Rattle.session_model.specs.Valid.{IsValid};
ghost use Rattle.engine_model.specs.Takes.{first_channel};
ghost use Rattle.track_capture.specs.Picked.{picked, sample_placed};

use session_model::Session;

// The channels of a track, which are those of its route.
fn width(session: &Session, track: u32) -> u16
    requires valid { IsValid session.now }
    requires track { track < length session.now.tracks.items }
    ensures channels { result ≡ channels_at session.now track }
    ensures some { 0 < result }
{
    session.routes.as_slice()[track as usize].channels
}

// The first channel of the input that a track records.
fn first(session: &Session, track: u32) -> u16
    requires { track < length session.now.tracks.items }
    ensures { result ≡ first_channel session.now track }
{
    session.tracks.as_slice()[track as usize].input.unwrap_or(0)
}

// The sample at a place of the input, silence where the input has no such channel.
fn sample(channels: u16, input: &[i32], place: usize, channel: usize) -> i32
    requires { channel < channels → place < length input.now }
    ensures { result ≡ sample_placed channels input.now place channel }
{
    if channel >= channels as usize {
        return 0;
    }
    input[place]
}

// The place and the channel that follow, where so many channels of each frame are picked.
fn next(place: usize, channel: usize, width: usize, channels: u16) -> (usize, usize)
    requires near { channel < width }
    requires place { place + channels + 1 < 2 ^ 64 }
    requires since { channel ≤ place }
    ensures within { channel + 1 < width → result ≡ (place + 1, channel + 1) }
    ensures over { channel + 1 ≡ width → result ≡ (place - channel + channels, 0) }
{
    if channel + 1 < width {
        (place + 1, channel + 1)
    } else {
        (place - channel + channels as usize, 0)
    }
}

/// Fills `out` with what a track records of a block of an input of so many channels. The place in the input is counted on,
/// so that no sample costs a division.
pub(crate) fn pick(session: &Session, track: u32, channels: u16, input: &[i32], out: &mut [i32])
    requires valid { IsValid session.now }
    requires track { track < length session.now.tracks.items }
    requires input { length input.now ≡ session.now.block * channels }
    requires out { length out.old ≡ session.now.block * channels_at session.now track }
    ensures { out.new ≡ picked session.now track channels input.now }
{
    let width = width(session, track) as usize;
    let first = first(session, track) as usize;
    let mut at = (first, 0);
    for v in out.iter_mut() {
        *v = sample(channels, input, at.0, first + at.1);
        at = next(at.0, at.1, width, channels);
    }
}
