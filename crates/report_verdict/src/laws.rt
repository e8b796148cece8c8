//! What it means that every line of a report stands.
ghost use Rattle.report_verdict.specs.Laws.{AllStandWhereAllAgree};

use master_blocks::the_master_is_its_blocks;

/// No line is refuted exactly where report, session and master agree.
pub fn all_stand_where_all_agree()
    ensures { AllStandWhereAllAgree }
{
    // Its contract is the law that this stands on.
    the_master_is_its_blocks();
}
