//! Media in memory with what fails of them, and edits that may follow.
ghost use mathlib.Core.List.{IsPrefix};
ghost use Rattle.session_model.specs.declared.session.Session.{Session as Opening};
ghost use Rattle.edition_log.specs.EditionState.{IsEditionOf};

use edit_script::{Command, parse, read_can_be_said};
use edition_log::{Edition, Refusal};
use ses_io::{MemMedia, NoMemory};
use std::alloc::Global;

/// A file of a media: its name, and its bytes in parts.
pub(crate) struct File {
    pub(crate) name: &'static str,
    pub(crate) parts: &'static [&'static [u8]],
}

/// What fails of a media.
#[derive(Clone, Copy)]
pub(crate) enum Fails {
    Nothing,
    /// The n-th call, from 1.
    Call(u64),
}

/// The parts one after the other.
pub(crate) fn joined(alloc: Global, parts: &[&[u8]]) -> Result<Vec<u8>, NoMemory> {
    let mut whole = Vec::new(alloc);
    for part in parts {
        whole.extend_from_slice(part)?;
    }
    Ok(whole)
}

/// A media of these files, of which this fails.
pub(crate) fn media_of(alloc: Global, files: &[File], fails: Fails) -> Result<MemMedia, NoMemory> {
    let mut media = MemMedia::new(alloc);
    for file in files {
        media.put(file.name, joined(alloc, file.parts)?)?;
    }
    match fails {
        Fails::Nothing => {}
        Fails::Call(n) => media.fail_call(n)?,
    }
    Ok(media)
}

/// Takes the edit of a control line in; None where the line is none, or none may follow.
pub(crate) fn carry_out(e: &mut Edition, line: &[u8]) -> Option<Result<u32, Refusal>>
    ensures stays { (s : Opening) → IsEditionOf s e.old → IsEditionOf s e.new }
    ensures more { IsPrefix e.old.edits e.new.edits }
{
    // Its contract is the law that what is read keeps its forms.
    read_can_be_said();
    match parse(line) {
        Ok(Command::Do(edit)) if !e.ended() && !e.transport().quit => Some(e.apply(&edit)),
        _ => None,
    }
}
