// The text of a bench script: from bytes to commands.
#![tactic(auto)]

mod commands;
mod numbers;
mod text;

pub use commands::{Command, Style, parse};
pub use text::{Lines, cleaned, name};
