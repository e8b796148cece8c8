//! What the workers share: the list of edits, and their rings.
ghost use Rattle.std.specs.Prelude.{◌≡◌, [], false, IfOk};
ghost use Rattle.session_model.specs.Valid.{IsValid};
ghost use Rattle.route_lists.specs.Answers.{AreNew};
ghost use Rattle.cycle_grants.specs.Making.{AreNewEnds};
ghost use Rattle.run_rings.specs.Rings.{AreNewRunEnds};

use cycle_grants::{Allowance, Granting, new_grants};
use edition_log::Edition;
use route_lists::{ListReader, Lists, lists};
use run_rings::{RunEnds, new_run_ends};
use ses_io::{NoMemory, TryClone};
use std::alloc::Global;
use std::sync::Wait;

/// A new list with its readers, and the ends of new rings.
#[derive(Drop)]
pub(crate) struct Shared<'r, R: Wait> {
    pub(crate) lists: Lists<'r, R>,
    /// The process's.
    pub(crate) playing: ListReader,
    /// The butler's.
    pub(crate) serving: ListReader,
    pub(crate) ends: RunEnds,
    pub(crate) granting: Granting,
    pub(crate) allowance: Allowance,
}

/// All of it for an edition that has no edit yet.
pub(crate) fn share<'r, R: Wait>(
    rt: &'r R,
    alloc: Global,
    e: &Edition,
) -> Result<Shared<'r, R>, NoMemory>
    requires valid { IsValid e.now.session }
    requires first { e.now.edits ≡ [] }
    requires open { e.now.ended ≡ false }
    ensures lists { IfOk result (λ x. AreNew e.now x.lists x.playing x.serving) }
    ensures ends { IfOk result (λ x. AreNewRunEnds e.now.session x.ends) }
    ensures grants { IfOk result (λ x. AreNewEnds e.now.session.depth x.granting x.allowance) }
{
    let session = e.session();
    let (granting, allowance) = new_grants(alloc, session.depth)?;
    let ends = new_run_ends(alloc, session)?;
    let (lists, playing, serving) = lists(rt, alloc, e.try_clone(alloc)?)?;
    Ok(Shared {
        lists,
        playing,
        serving,
        ends,
        granting,
        allowance,
    })
}
