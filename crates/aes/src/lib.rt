// AES-128 and AES-128-CMAC.
#![tactic(auto)]

mod block;
mod cipher;
mod mac;
mod tables;

pub use block::BLOCK_BYTES;
pub use cipher::encrypt_block;
pub use mac::{Cmac, Subkeys, generate_subkeys};
