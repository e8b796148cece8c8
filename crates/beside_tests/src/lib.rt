//! Process and butler that need one another to run at once, and workers whose list is gone.
#![tactic(auto)]

#[cfg(test)]
mod flags;
#[cfg(test)]
mod gone_opening;
#[cfg(test)]
mod gone_rows;
#[cfg(test)]
mod gone_running;
#[cfg(test)]
mod side_files;
#[cfg(test)]
mod side_media;
#[cfg(test)]
mod side_opening;
#[cfg(test)]
mod side_rows;
#[cfg(test)]
mod side_sink;
#[cfg(test)]
mod side_source;
