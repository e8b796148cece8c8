//! What a run in memory leaves.
use run_world::Finished;
use ses_io::{MemMedia, MemSink, MemSource};

/// What a run in memory leaves.
pub type InMemory = Finished<MemMedia, MemSource, MemSource, MemSink, MemSink>;
