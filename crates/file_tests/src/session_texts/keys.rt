//! Each key missing, of another kind and out of range, and an unknown key in each part.
//! What is answered was worked out from the tables of keys by hand.
mod desk;
mod region;
mod session;
mod track;

pub(crate) use desk::DESK;
pub(crate) use region::REGION;
pub(crate) use session::SESSION;
pub(crate) use track::TRACK;
