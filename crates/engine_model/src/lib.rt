//! The definitions of the engine: a crate of `specs/` alone. What editions, places, pieces, entries and a lawful run are,
//! stated once over plain lists; the laws above them stand in `engine_laws`.
#![tactic(auto)]
