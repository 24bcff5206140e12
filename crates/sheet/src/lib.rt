//! Reads a load sheet: its head, and its tasks into a table of the caller's; or says where it is wrong, and why.
#![tactic(auto)]

mod class;
mod fault;
mod forms;
mod law;
mod lex;
mod limits;
mod line;
mod lines;
mod parse;
mod reader;
mod table;
mod token;

pub use fault::{Cause, Fault};
pub use law::worked_sheets;
pub use lex::Lexer;
pub use limits::{LONGEST, NAME};
pub use reader::read;
pub use table::{Entry, Head, rates};
pub use token::Token;

#[cfg(test)]
mod tests;
