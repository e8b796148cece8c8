//! Where report, session and master agree, nothing is refuted.
ghost use Rattle.session_verify.specs.Laws.{WhatAgreesIsAnswered};

use report_check::what_agrees_is_verified;
use session_opening::open_is_valid;

/// Where report, session and master agree, verify says so, but for a failed read and want of memory.
pub fn what_agrees_is_answered()
    ensures { WhatAgreesIsAnswered }
{
    what_agrees_is_verified();
    open_is_valid();
}
