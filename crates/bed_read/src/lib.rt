// Reading a .bed file from lent bytes into a lent matrix.
#![tactic(auto)]

mod checks;
mod lines;
mod read;
mod table;

pub use checks::{ReadError, check_lists, check_read};
pub use read::read_no_alloc;
