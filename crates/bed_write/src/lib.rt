// Packing values into blocks, and writing a .bed file into lent bytes.
#![tactic(auto)]

mod encode;
mod group;
mod matrix;
mod search;
mod value_codes;
mod write;

pub use encode::{EncodeError, encode1};
pub use matrix::TILE;
pub use value_codes::{Coder, EncodeVal, WriteVal};
pub use write::{HEADER, WriteError, write_val};
