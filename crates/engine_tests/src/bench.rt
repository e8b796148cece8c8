//! What several subjects stand on: media in memory, sessions that open, and edits that may follow.
use edition_log::{Edition, Refusal};
use ses_io::{MemMedia, NoMemory};
use session_model::{Edit, Key, Part, Place, SessionRefusal};
use session_opening::{Loaded, open};
use std::alloc::Global;
use std::process::Abort;

/// A file of a media: its name, and its bytes in parts.
#[derive(Clone, Copy)]
pub(crate) struct File {
    pub(crate) name: &'static str,
    pub(crate) parts: &'static [&'static [u8]],
}

fn joined(alloc: Global, parts: &[&[u8]]) -> Result<Vec<u8>, NoMemory> {
    let mut whole = Vec::new(alloc);
    for part in parts {
        whole.extend_from_slice(part)?;
    }
    Ok(whole)
}

/// A media of these files.
pub(crate) fn media_of(alloc: Global, files: &[File]) -> Result<MemMedia, NoMemory> {
    let mut media = MemMedia::new(alloc);
    for file in files {
        media.put(file.name, joined(alloc, file.parts)?)?;
    }
    Ok(media)
}

/// The same, whose reads fail of these files from these places on.
pub(crate) fn failing_media(
    alloc: Global,
    files: &[File],
    bad_reads: &[(&'static str, u64)],
) -> Result<MemMedia, NoMemory> {
    let mut media = media_of(alloc, files)?;
    for (name, from) in bad_reads {
        media.fail_reads(name, *from)?;
    }
    Ok(media)
}

/// A block of no frames is out of range.
pub(crate) fn block_range() -> SessionRefusal {
    let place = Place {
        part: Part::Session,
        row: 1,
        item: 0,
    };
    SessionRefusal::Range(place, Key::Block)
}

/// A row of a table holds.
pub(crate) fn row_holds<R: Abort>(rt: &R, at: usize, right: bool) {
    assert!(rt; right, "row {at}");
}

/// Edition 0 of the session `s.toml`.
pub(crate) fn opening(alloc: Global, files: &[File]) -> Option<Edition> {
    let Ok(mut media) = media_of(alloc, files) else {
        return None;
    };
    match open(alloc, &mut media, "s.toml") {
        Ok(
            Loaded {
                edition,
                sources: _,
            },
        ) => Some(edition),
        Err(_) => None,
    }
}

/// Takes an edit in, where one may follow.
pub(crate) fn carry_out(e: &mut Edition, edit: Edit) -> Option<Result<u32, Refusal>> {
    match edit {
        Edit::Roll | Edit::Locate { .. } if !e.ended() && !e.transport().quit => {
            Some(e.apply(&edit))
        }
        _ => None,
    }
}
