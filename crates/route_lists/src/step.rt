//! What the writer publishes: one more accepted edit, or the end.
ghost use Rattle.std.specs.Prelude.{IsTrue};
ghost use Rattle.engine_model.specs.Edits.{keeps_forms};

use session_model::Edit;

/// An edit that keeps the forms of a control line, as a reader has to know to take it in.
#[derive(Clone, Copy)]
pub struct Accepted {
    pub edit: Edit,
    ghost forms: { IsTrue (keeps_forms edit) },
}

/// One thing that is published.
#[derive(Clone, Copy)]
pub enum Step {
    /// One more edit.
    Add(Accepted),
    /// No edit follows.
    End,
}

impl Step {
    ghost use Rattle.route_lists.specs.Shared.{Adds};

    /// The step that adds this edit.
    pub(crate) fn adding(edit: &Edit) -> Step
        requires { IsTrue (keeps_forms edit.now) }
        ensures { Adds edit.now result }
    {
        Step::Add(Accepted { edit: *edit })
    }
}
