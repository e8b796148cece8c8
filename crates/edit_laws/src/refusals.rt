//! The laws of refusals.

ghost use Rattle.edit_laws.specs.CommandLaws.{ARefusalNamesTheFirstRule, AnEditIsRefusedByTheFirstRule};

/// A command is refused with the first of its rules that is broken, and accepted where none is.
pub fn a_refusal_names_the_first_rule()
    ensures { ARefusalNamesTheFirstRule }
{}

/// So is an edit of an edition, and none is accepted after 10,000.
pub fn an_edit_is_refused_by_the_first_rule()
    ensures { AnEditIsRefusedByTheFirstRule }
{}
