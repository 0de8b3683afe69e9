// What parts are made of: the rows of a table, and the counters.
#![tactic(auto)]

mod cell;
mod counter;

pub use cell::{Cell, FlashRow, PlainRow};
pub use counter::{Counter, Register, Strip};
