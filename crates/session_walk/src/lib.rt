//! A session's text in TOML, read part by part and key by key, or refused at the first key that is wrong.
#![tactic(auto)]

mod arrays;
mod choices;
mod desk;
mod fault;
mod lane;
mod laws;
mod parts;
mod said;
mod section;
mod text;
mod values;
mod words;

pub use fault::SessionFault;
pub use laws::{written_is_in_range, written_is_said};
pub use said::{
    Automation, ChannelStrip, Fades, Head, InputSettings, Level, MasterText, Named, RegionText,
    RouteText, SendText, Span, TrackOwn, TrackText, Version, Written,
};
pub use text::written;
pub use words::word;
