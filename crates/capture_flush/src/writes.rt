//! Bytes written to a file of a media until all of them are there.
ghost use Rattle.std.specs.Prelude.{◌≡◌, ◌*◌, ◌%◌, ◌<◌, [], length, if◌then◌else◌, replicate, OnOk, OnErr};
ghost use Rattle.ses_io.specs.Files.{content, with_file, overwritten, HasRange, OverwritesSome};
ghost use Rattle.ses_io.specs.Outside.{WriteCause};
ghost use Rattle.capture_flush.specs.Writes.{Adds};

use crate::fault::WriteFault;
use ses_io::Media;

/// Adds bytes to the end of a file, or a front of them at WriteFault.
pub(crate) fn append_all<M: Media>(
    media: &mut M,
    name: &str,
    bytes: &[u8],
) -> Result<(), WriteFault>
    ensures { Adds M.outside name.now bytes.now media.old media.new result }
{
    let mut done = 0;
    while done < bytes.len() {
        match media.append(name, &bytes[done..]) {
            Ok(n) => done += n,
            Err(_) => return Err(WriteFault),
        }
    }
    Ok(())
}

/// Adds the same zeros so many times to the end of a file.
pub(crate) fn append_repeated<M: Media>(
    media: &mut M,
    name: &str,
    zeros: &[u8],
    times: u64,
) -> Result<(), WriteFault>
    requires { zeros.now ≡ replicate (length zeros.now) 0 }
    ensures { Adds M.outside name.now (replicate (times * length zeros.now) 0)
        media.old media.new result }
{
    for time in 0..times {
        append_all(media, name, zeros)?;
    }
    Ok(())
}

/// Begins a file that is new with a head.
pub(crate) fn begin<M: Media>(
    media: &mut M,
    name: &str,
    head: &[u8],
    new: bool,
) -> Result<(), WriteFault>
    ensures { Adds M.outside name.now (if new then head.now else []) media.old media.new result }
{
    if new {
        return append_all(media, name, head);
    }
    Ok(())
}

/// Adds a pad byte to the end of a file with an odd number of bytes.
pub(crate) fn pad<M: Media>(media: &mut M, name: &str, bytes: u64) -> Result<(), WriteFault>
    ensures { Adds M.outside name.now (replicate (bytes % 2) 0) media.old media.new result }
{
    if bytes % 2 == 1 {
        return append_all(media, name, &[0]);
    }
    Ok(())
}

/// Writes bytes over those at the front of a file, or a front of them at WriteFault.
pub(crate) fn overwrite_front<M: Media>(
    media: &mut M,
    name: &str,
    bytes: &[u8],
) -> Result<(), WriteFault>
    requires some { 0 < length bytes.now }
    requires inside { M.outside.tells
        → HasRange (M.outside.files media.old) name.now 0 (length bytes.now) }
    ensures all { M.outside.tells → OnOk result (M.outside.files media.new
        ≡ with_file (M.outside.files media.old) name.now
        (overwritten (content (M.outside.files media.old) name.now) 0 bytes.now)) }
    ensures front { M.outside.tells → OnErr result (OverwritesSome (M.outside.files media.old)
        (M.outside.files media.new) name.now 0 bytes.now) }
    ensures cause { WriteCause M.outside media.old media.new result }
    ensures reads { M.outside.read_faults media.new ≡ M.outside.read_faults media.old }
{
    let mut done = 0;
    while done < bytes.len() {
        match media.write_at(name, done as u64, &bytes[done..]) {
            Ok(n) => done += n,
            Err(_) => return Err(WriteFault),
        }
    }
    Ok(())
}
