// A matrix in marker order: each marker in turn, whose values stand together.
ghost use Rattle.std.specs.Prelude.{◌≡◌, false, ◌+◌, ◌^◌, ◌<◌, length, map};
ghost use Rattle.std.specs.Float.{binary64};
ghost use Rattle.statistics.specs.Statistics.{marker_stats, found_for, stats_at, standardised};
ghost use Rattle.standardise.specs.Says.{standardise_says};
ghost use Rattle.standardise.specs.Private.{StatsIn, BuffersFit, nth, later_value, stored_stats, Accumulates, Processes};

use crate::answers::StandardiseError;
use crate::{answers, stats_buffer};
use statistics::{Accumulator, MarkerError, MarkerStats, Stats};

// Four values more where none is a NaN, so that no sum waits for a test; else one more, or a NaN passed over. With how many animals are passed then.
fn add_some(a: Accumulator, i: usize, v0: f64, v1: f64, v2: f64, v3: f64) -> (Accumulator, usize)
    requires { i + 4 < 2 ^ 64 }
    ensures { Accumulates binary64 a i v0 v1 v2 v3 result.0 result.1 }
{
    if v0.is_nan() {
        return (a, i + 1);
    }
    if v1.is_nan() || v2.is_nan() || v3.is_nan() {
        return (a.add_value(v0), i + 1);
    }
    let four = Accumulator {
        count: a.count + 1.0 + 1.0 + 1.0 + 1.0,
        sum: a.sum + v0 + v1 + v2 + v3,
        squares: a.squares + v0 * v0 + v1 * v1 + v2 * v2 + v3 * v3,
    };
    (four, i + 4)
}

// The statistics of a marker, from its values.
fn column_stats(column: &[f64]) -> Result<MarkerStats, MarkerError>
    ensures { result ≡ marker_stats binary64 (length column.now) (nth column.now) }
{
    let mut a = Accumulator::default();
    let mut passed = 0;
    // A `while`, whose step is one or four: a `for` over fours, which tests each of a four with a NaN, took 1.03 of the time (2 % missing),
    // which counts where this row is near C's: 0.97 to 1.20 of C with 64 animals (docs/SPEED.md).
    while column.len() - passed > 3 {
        let some = add_some(
            a,
            passed,
            column[passed],
            column[passed + 1],
            column[passed + 2],
            column[passed + 3],
        );
        a = some.0;
        passed = some.1;
    }
    for &v in &column[passed..] {
        a = a.add_value(v);
    }
    a.find_stats()
}

// Standardises a marker's values.
fn apply_column(column: &mut [f64], s: Stats)
    ensures { column.new ≡ map (standardised binary64 s) column.old }
{
    let scale = s.scale();
    for v in column.iter_mut() {
        *v = scale.scaled(*v);
    }
}

// Marker m, whose values are the column: its statistics, lent or found, then its values.
fn process_sid(
    column: &mut [f64],
    m: usize,
    apply_in_place: bool,
    use_stats: bool,
    stats: &mut [f64],
) -> Result<MarkerStats, MarkerError>
    requires { StatsIn stats.old m }
    ensures { (result ≡ found_for binary64 use_stats (stats_at stats.old m) (length column.old) (nth column.old))
        × (column.new ≡ map (later_value binary64 apply_in_place result) column.old)
        × (stats.new ≡ stored_stats result m stats.old) }
{
    let found = if use_stats {
        Ok(MarkerStats {
            stats: stats_buffer::get_stats(stats, m),
            observed: None,
        })
    } else {
        column_stats(column)
    };
    stats_buffer::put_found(stats, m, found);
    if apply_in_place {
        if let Ok(found) = found {
            apply_column(column, found.stats);
        }
    }
    found
}

// Marker order: each marker in turn.
pub(crate) fn process_all_sids(
    val: &mut [f64],
    iid_count: usize,
    sid_count: usize,
    apply_in_place: bool,
    use_stats: bool,
    stats: &mut [f64],
) -> Result<(), StandardiseError>
    requires { BuffersFit iid_count sid_count val.old stats.old }
    ensures { Processes binary64 false iid_count sid_count val.old use_stats stats.old apply_in_place
        (standardise_says result) val.new stats.new }
{
    let mut answer = Ok(());
    for m in 0..sid_count {
        let start = m * iid_count;
        let column = &mut val[start..start + iid_count];
        let found = process_sid(column, m, apply_in_place, use_stats, stats);
        answer = answer.and(answers::marker_answer(m, found));
    }
    answer
}
