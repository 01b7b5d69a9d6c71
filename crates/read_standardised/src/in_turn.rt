// Reading and standardising in turn, as demand 3 makes the two calls.
ghost use Rattle.std.specs.Float.{binary64};
ghost use Rattle.read_standardised.specs.Says.{in_turn_says};
ghost use Rattle.read_standardised.specs.Ways.{in_turn, GoesBy};

use bed_read::ReadError;
use standardise::StandardiseError;

// What the two calls answer.
#[derive(Clone, Copy, Debug, PartialEq, Eq)]
pub struct AnswersInTurn {
    pub reading: Result<(), ReadError>,
    pub standardising: Result<(), StandardiseError>,
}

// Demand 3's other way: reads with missing NaN, then standardises the values as the reading left them, whatever it answered, in the order they were
// read in and with the lengths of the two lists as its counts.
pub fn read_then_standardise_f64(
    file: &[u8],
    iid_count: usize,
    sid_count: usize,
    is_a1_counted: bool,
    iid_index: &[i64],
    sid_index: &[i64],
    animal_order: bool,
    val: &mut [f64],
    use_stats: bool,
    apply_in_place: bool,
    stats: &mut [f64],
) -> AnswersInTurn
    ensures { GoesBy binary64 file.now iid_count sid_count is_a1_counted iid_index.now sid_index.now
        animal_order val.old stats.old (in_turn use_stats apply_in_place) (in_turn_says result) val.new stats.new }
{
    let reading = bed_read::read_no_alloc(
        file,
        iid_count,
        sid_count,
        is_a1_counted,
        iid_index,
        sid_index,
        f64::NAN,
        animal_order,
        val,
    );
    let standardising = standardise::impute_and_zero_mean_snps_f64(
        val,
        iid_index.len(),
        sid_index.len(),
        animal_order,
        apply_in_place,
        use_stats,
        stats,
    );
    AnswersInTurn {
        reading,
        standardising,
    }
}
