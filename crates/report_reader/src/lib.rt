//! Reads the report of a run.
#![tactic(auto)]

mod cursor;
mod fields;
mod items;
mod laws;
mod lines;
mod notes;
mod report;

pub use laws::{
    a_file_is_cut_one_way, a_report_is_read_one_way, read_or_refused, what_is_written_is_read,
};
pub use report::{Report, ReportRefusal, read_report};
