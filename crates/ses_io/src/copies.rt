//! Copies a part of some bytes to a buffer's front.
ghost use Rattle.std.specs.Prelude.{◌≡◌, ◌-◌, min, length};
ghost use Rattle.ses_io.specs.Files.{IsPart};

/// Copies the bytes from place `at` on, as many as there are and as the buffer takes.
pub(crate) fn copy_from(held: &[u8], at: usize, buf: &mut [u8]) -> usize
    ensures count { result ≡ min (length buf.new) (length held.now - at) }
    ensures bytes { IsPart held.now at buf.new result }
{
    if at >= held.len() {
        return 0;
    }
    let n = buf.len().min(held.len() - at);
    buf[..n].copy_from_slice(&held[at..at + n]);
    n
}
