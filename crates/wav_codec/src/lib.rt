//! WAV files as bytes: a head read piece by piece, samples decoded and encoded, a header written.
#![tactic(auto)]

mod canon;
mod decoding;
mod encoding;
mod fields;
mod form;
mod fours;
mod info;
mod refusal;
mod scan;
mod sixteens;

pub use canon::{canon_is_header_and_sound, header};
pub use decoding::decode;
pub use encoding::encode;
pub use form::WavForm;
pub use info::WavInfo;
pub use refusal::WavRefusal;
pub use scan::{Scan, Step, Want};
