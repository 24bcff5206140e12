//! The theory of runs, level by level: what a frame start and a tick do, and why no deadline is missed.
#![tactic(auto)]

mod item;
mod server;
pub mod theory;

pub use item::Item;
pub use server::Server;
