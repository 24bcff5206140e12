//! The ledger of a run, and the laws that every history of calls keeps.
#![tactic(auto)]

pub mod theory;
