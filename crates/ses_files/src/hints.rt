//! What is told on standard error, beside the answers: which file it is, and what is wrong with it. Where that can't be
//! written it is left out.
use std::io::Eprint;

pub(crate) fn cant_be_read<R: Eprint>(rt: &R, name: &str) {
    let _ = eprintln!(rt; "{name}: can't be read");
}

pub(crate) fn cant_be_written<R: Eprint>(rt: &R, name: &str) {
    let _ = eprintln!(rt; "{name}: can't be written");
}

pub(crate) fn is_no_file<R: Eprint>(rt: &R, name: &str) {
    let _ = eprintln!(rt; "{name}: a folder, a pipe or a device, where a file is wanted");
}

pub(crate) fn is_read<R: Eprint>(rt: &R, name: &str) {
    let _ = eprintln!(rt; "{name}: this run reads it, so it is left as it is");
}

pub(crate) fn leads_out<R: Eprint>(rt: &R, name: &str) {
    let _ = eprintln!(rt; "{name}: a link that leads out of the folder, so it isn't followed");
}

/// Told with the first take.
pub(crate) fn is_silent<R: Eprint>(rt: &R, take: &str) {
    let _ = eprintln!(rt; "{take}: there is no device-in.wav, so silence is recorded");
}
