//! The outside as traits that tell what they hold and how often they failed, and objects of them in memory.
#![tactic(auto)]

mod call_plan;
mod copies;
mod errors;
mod fail_places;
mod fixed_list;
mod media;
mod mem_file;
mod mem_media;
mod mem_sink;
mod mem_source;
mod shelf;
mod sink;
mod source;
mod try_clone;
mod world;

pub use errors::{Failed, NoMemory};
pub use fixed_list::FixedList;
pub use media::{Media, read_at_full};
pub use mem_media::MemMedia;
pub use mem_sink::MemSink;
pub use mem_source::MemSource;
pub use sink::{Sink, write_all};
pub use source::{Source, read_full};
pub use try_clone::TryClone;
pub use world::World;
