//! Which client of a server runs next: choosing rules, and the balance that they keep.
#![tactic(auto)]

mod careless;
mod choosing;
mod limits;
pub mod rules;
mod share;

pub use careless::careless_rules_are_unlawful;
pub use choosing::{Choosing, Steady};
pub use limits::CLIENTS;
pub use share::Share;

#[cfg(test)]
mod tests;
