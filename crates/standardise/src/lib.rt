// Standardising the markers of a matrix of f64: `impute_and_zero_mean_snps` with Unit.
#![tactic(auto)]

ghost use Rattle.std.specs.Float.{binary64};
ghost use Rattle.standardise.specs.Standardised.{Standardises};
ghost use Rattle.standardise.specs.Says.{standardise_says};

mod animal_order;
mod answers;
mod marker_order;
mod stats_buffer;

pub use answers::StandardiseError;
pub use stats_buffer::STATS_PER_MARKER;

// Makes the markers of a matrix zero-mean with unit deviation and puts +0 for missing values. The statistics buffer has the mean, the
// deviation and the observed count of each marker; with `use_stats` the first two are lent, else all three are found.
#[tactic(auto, using(std::proofs::lemmas::Bool::Decides::nat_tests))]
pub fn impute_and_zero_mean_snps_f64(
    val: &mut [f64],
    iid_count: usize,
    sid_count: usize,
    animal_order: bool,
    apply_in_place: bool,
    use_stats: bool,
    stats: &mut [f64],
) -> Result<(), StandardiseError>
    ensures { Standardises binary64 animal_order iid_count sid_count val.old use_stats stats.old apply_in_place
        (standardise_says result) val.new stats.new }
{
    if !answer::counts_fit(iid_count, sid_count) {
        return Err(StandardiseError::CountTooLarge);
    }
    if !blocks::product_is(iid_count, sid_count, val.len()) {
        return Err(StandardiseError::IndexMismatch);
    }
    if !blocks::product_is(STATS_PER_MARKER, sid_count, stats.len()) {
        return Err(StandardiseError::StatsMismatch);
    }
    // Both orders take the call's own parameters: in a struct, each contract would name its fields in place of them, and be no plainer. The
    // two flags are the original's, and each is read in one place of each order.
    if animal_order {
        return animal_order::process_all_iids(
            val,
            iid_count,
            sid_count,
            apply_in_place,
            use_stats,
            stats,
        );
    }
    marker_order::process_all_sids(val, iid_count, sid_count, apply_in_place, use_stats, stats)
}
