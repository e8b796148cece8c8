//! A run is verified exactly where report, session and master agree.
ghost use Rattle.report_check.specs.Laws.{VerifiedWhereAllAgree, WhatAgreesIsVerified};

use report_reader::{a_file_is_cut_one_way, a_report_is_read_one_way, read_or_refused};
use report_verdict::all_stand_where_all_agree;

/// What is verified agrees.
pub fn verified_where_all_agree()
    ensures { VerifiedWhereAllAgree }
{
    all_stand_where_all_agree();
}

/// What agrees is verified, but for files that aren't read and want of memory.
pub fn what_agrees_is_verified()
    ensures { WhatAgreesIsVerified }
{
    all_stand_where_all_agree();
    a_file_is_cut_one_way();
    a_report_is_read_one_way();
    read_or_refused();
}
