//! A line is taken, and its edit published and answered.
ghost use Rattle.std.specs.Prelude.{◌≡◌, true, false, length, List};
ghost use Rattle.engine_model.specs.Edits.{has_quit};
ghost use Rattle.engine_model.specs.Lines.{Line};
ghost use Rattle.engine_model.specs.Replies.{Reply};
ghost use Rattle.edition_log.specs.EditionState.{IsEditionOf};
ghost use Rattle.control_desk.specs.State.{ControlState};
ghost use Rattle.control_desk.specs.Standing.{Ready};
ghost use Rattle.lead_worker.specs.Leads.{Carries, at_line};

use control_desk::{Control, Progress};
use route_lists::{Lists, PublishRefusal};
use ses_io::{Sink, Source};
use session_model::Session;
use std::snapshot::Snapshot;
use std::sync::Wait;

// What control sees at a line of its own.
fn at_line(edits: u32) -> Progress
    ensures { result ≡ at_line edits }
{
    Progress {
        edits,
        entries: 0,
        settled: None,
        played_out: false,
    }
}

/// Takes the next line. An edit is published and answered, unless there is no memory for it. Whether there was none.
pub(crate) fn carry<'r, R: Wait, C: Source, O: Sink>(
    session: &Snapshot<Session>,
    lists: Lists<'r, R>,
    control: &mut Control<C, O>,
) -> (Lists<'r, R>, bool)
    requires edition { IsEditionOf session.now.value lists.edition }
    requires open { lists.edition.ended ≡ false }
    requires ready { control.old.standing ≡ Ready }
    requires unquit { has_quit lists.edition.edits (length lists.edition.edits) ≡ false }
    ensures carries { Carries C.outside O.outside session.now.value lists.entry.edition.edits
        control.old result.1 result.0.edition.edits control.new }
    ensures edition { IsEditionOf session.now.value result.0.edition }
    ensures open { result.0.edition.ended ≡ false }
{
    // by which clauses know the session that was opened
    let _ = session;
    let seen = at_line(lists.edition().number());
    let Some(edit) = control.next(&seen) else {
        return (lists, false);
    };
    let (lists, answer) = lists.apply_and_publish(&edit);
    match answer {
        Ok(number) => control.published(&edit, Ok(number)),
        Err(PublishRefusal::Refused(why)) => control.published(&edit, Err(why)),
        Err(PublishRefusal::NoMemory) => return (lists, true),
    }
    (lists, false)
}
