//! The making of the writer and its two readers.
ghost use Rattle.std.specs.Prelude.{◌≡◌, [], false, IfOk};
ghost use Rattle.session_model.specs.declared.session.Session.{Session as Opening};
ghost use Rattle.edition_log.specs.EditionState.{IsEditionOf};
ghost use Rattle.route_lists.specs.Lists.{IsReaderOf};
ghost use Rattle.route_lists.specs.Answers.{AreNew, new_reader};

use crate::reading::ListReader;
use crate::shelf::Shelf;
use crate::writing::Lists;
use edition_log::Edition;
use left_right::writer::Writer;
use ses_io::{NoMemory, TryClone};
use std::alloc::Global;
use std::sync::Wait;

// A reader of the writer's list, with editions that are equal to the writer's.
fn reader<R: Wait>(alloc: Global, lists: &Lists<R>) -> Result<ListReader, NoMemory>
    requires { (lists.now.edition.edits ≡ []) × (lists.now.edition.ended ≡ false) }
    ensures { IfOk result (λ r. r ≡ new_reader lists.now.edition lists.now.table) }
{
    Ok(ListReader {
        reader: lists.writer.factory().reader()?,
        edition: lists.edition.try_clone(alloc)?,
        spare: lists.edition.try_clone(alloc)?,
    })
}

/// The writer of the list of an edition that has no edit yet, and its two readers, each with two editions of its own. It takes
/// `rt` since a writer is dropped only by waiting for its readers. Where a reader can't be made, that counts as want of memory.
pub fn lists<'r, R: Wait>(
    rt: &'r R,
    alloc: Global,
    e: Edition,
) -> Result<(Lists<'r, R>, ListReader, ListReader), NoMemory>
    requires { (e.edits ≡ []) × (e.ended ≡ false) }
    ensures made { IfOk result (λ t. AreNew e t.0 t.1 t.2) }
    ensures opening { IfOk result (λ t. (s : Opening) → IsEditionOf s e
        → IsReaderOf s t.1 × IsReaderOf s t.2) }
{
    let writer = Writer::new(alloc, Shelf::new(alloc)?, Shelf::new(alloc)?, 2)?;
    let lists = Lists {
        writer,
        rt,
        edition: e,
    };
    let first = reader(alloc, &lists)?;
    let second = reader(alloc, &lists)?;
    Ok((lists, first, second))
}
