//! The definitions of the sound: a crate of `specs/` alone, which every layer above is proved against.
#![tactic(auto)]
