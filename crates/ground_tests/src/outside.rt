//! What no clause says: that calls succeed with ample memory, and what real files do.

mod files;
mod folders;
mod lists;
mod memory;
mod standing;

use ses_io::{Failed, Media, MemMedia};
use std::alloc::Global;

/// A call of a media on the file of a name, and what it has to answer.
enum Call {
    Size(&'static str, Result<Option<u64>, Failed>),
    Any(&'static str, Result<bool, Failed>),
    /// A read from a place on, of so many bytes into the front of four that are dots: how many came, and all four.
    Read(&'static str, u64, usize, Result<(usize, [u8; 4]), Failed>),
    Append(&'static str, &'static [u8], Result<usize, Failed>),
}

fn read<M: Media>(
    media: &mut M,
    name: &str,
    at: u64,
    most: usize,
) -> Result<(usize, [u8; 4]), Failed> {
    let mut four = *b"....";
    let n = media.read_at(name, at, &mut four[..most.min(4)])?;
    Ok((n, four))
}

// Whether a call was answered as it says.
fn does<M: Media>(media: &mut M, call: &Call) -> bool {
    match call {
        Call::Size(name, want) => media.size(name) == *want,
        Call::Any(prefix, want) => media.any(prefix) == *want,
        Call::Read(name, at, most, want) => read(media, name, *at, *most) == *want,
        Call::Append(name, bytes, want) => media.append(name, bytes) == *want,
    }
}

// Whether all were.
fn does_all<M: Media>(media: &mut M, calls: &[Call]) -> bool {
    for call in calls {
        if !does(media, call) {
            return false;
        }
    }
    true
}

/// Puts a file `a.wav` of these bytes into a media.
fn put(alloc: Global, media: &mut MemMedia, bytes: &[u8]) -> bool {
    let Ok(bytes) = [bytes].concat(alloc) else {
        return false;
    };
    media.put("a.wav", bytes).is_ok()
}
