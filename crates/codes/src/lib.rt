// The code of an item in a byte, four codes as a byte, and the value of a code.
#![tactic(auto)]

mod group;
mod table;
mod values;

pub use group::{Group, PAD, byte_of};
pub use table::{CodeTable, code_of_item, codes};
pub use values::{BedVal, Coding};
