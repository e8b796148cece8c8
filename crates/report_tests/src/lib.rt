//! Values from outside for reports, written and read, and for the lines of errors.
#![tactic(auto)]

#[cfg(test)]
mod error_lines;
#[cfg(test)]
mod reports;
#[cfg(test)]
mod reports_read;
