// The calls of the C interface, which mungkelas_c exports. Each takes C's parameters, is a thin function over the core's, and tells its result as a BedAnswer.
#![tactic(auto)]

mod lists;
mod numbers;
mod products;
mod reading;
mod writing;

pub use lists::{
    bed_byte_span, bed_index_all, bed_index_bool, bed_index_one, bed_index_range, bed_index_slice,
    bed_index_vec, bed_to_range, bed_try_div_4,
};
pub use numbers::{bed_impute_and_zero_mean_snps_f64, bed_root_f64};
pub use products::{bed_file_aat_piece, bed_file_ata_piece};
pub use reading::{
    bed_canonical, bed_count_calls, bed_open_and_check, bed_read, bed_read_standardised_f64,
};
pub use writing::{bed_encode1, bed_write};
