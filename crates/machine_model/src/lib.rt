//! The core machine: the engine as a machine over plain lists, one event after another, and what its letters do. A crate of
//! `specs/` alone; the laws of the machine stand in `machine_laws`.
#![tactic(auto)]
