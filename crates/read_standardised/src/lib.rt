// Document 01's joined call: reads with missing NaN, computes statistics and applies.
#![tactic(auto)]

ghost use Rattle.std.specs.Float.{binary64};
ghost use Rattle.read_standardised.specs.Says.{joined_says};
ghost use Rattle.read_standardised.specs.Joined.{Joins};

mod answers;
mod in_turn;

pub use answers::JoinedError;
use bed_file::FileError;
pub use in_turn::{AnswersInTurn, read_then_standardise_f64};

// The joined call. It checks 18, 15, 17, the reading's from 1 on, then markers.
pub fn read_standardised_f64(
    file: &[u8],
    iid_count: usize,
    sid_count: usize,
    is_a1_counted: bool,
    iid_index: &[i64],
    sid_index: &[i64],
    animal_order: bool,
    val: &mut [f64],
    stats: &mut [f64],
) -> Result<(), JoinedError>
    ensures { Joins binary64 file.now iid_count sid_count is_a1_counted iid_index.now sid_index.now
        animal_order val.old stats.old (joined_says result) val.new stats.new }
{
    if !answer::counts_fit(iid_count, sid_count) {
        return Err(JoinedError::File(FileError::CountTooLarge));
    }
    if !blocks::product_is(iid_index.len(), sid_index.len(), val.len()) {
        return Err(JoinedError::IndexMismatch);
    }
    if !blocks::product_is(standardise::STATS_PER_MARKER, sid_index.len(), stats.len()) {
        return Err(JoinedError::StatsMismatch);
    }
    bed_read::read_no_alloc(
        file,
        iid_count,
        sid_count,
        is_a1_counted,
        iid_index,
        sid_index,
        f64::NAN,
        animal_order,
        val,
    )?;
    answers::of_standardising(standardise::impute_and_zero_mean_snps_f64(
        val,
        iid_index.len(),
        sid_index.len(),
        animal_order,
        true,
        false,
        stats,
    ))
}
