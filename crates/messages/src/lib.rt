// The messages between a server and a terminal: their kinds, reading and writing them.
#![tactic(auto)]

mod fields;
mod kind;
mod message;
mod reading;
mod status;
mod writing;

pub use kind::{End, Kind};
pub use message::Message;
pub use reading::read;
pub use writing::write;
