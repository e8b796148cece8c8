//! The law of an export, with no journal in its sentence.

ghost use Rattle.journal_laws.specs.Exports.{AnExportIsTheMaster};

/// An export is the session's master from a place on, over as many blocks as it has cycles.
pub fn an_export_is_the_master()
    ensures { AnExportIsTheMaster }
{}
