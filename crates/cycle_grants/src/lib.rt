//! The ring by which control allows cycles to a process that runs beside it: both its ends, and the laws of allowances
//! and of patience.
#![tactic(auto)]

mod allowance;
mod granting;
mod laws;
mod making;

pub use allowance::{Allowance, AllowanceParts};
pub use granting::{Granting, GrantingParts, NotGranted};
pub use laws::{
    allowances_are_kept, an_entry_follows, awaiting_keeps_allowances, further_looks,
    grants_are_asked, looked_stands, no_entry_is_allowed_yet, one_more_is_looked_for, paces_go_on,
    the_last_grant_is_full, waited_for_stands, waited_for_with_its_entry,
};
pub use making::new_grants;
