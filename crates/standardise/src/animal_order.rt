// A matrix in animal order: the statistics of all markers, then the values, each pass along the rows, tile by tile.
//
// `base` and `width` stay two numbers: a struct with `width ≤ tile_width` as a ghost field would spare the clause in `count_tile`, `load` and
// `apply_tile` only. `count_rows` and `apply_row` have no base, `at` and `put` one marker, and would keep theirs.
ghost use Rattle.std.specs.Prelude.{◌≡◌, true, false, ◌&&◌, cond, ℕ, ◌+◌, ◌*◌, ◌≤◌, ◌<◌, length};
ghost use Rattle.std.specs.Float.{binary64};
ghost use Rattle.answer.specs.Answer.{is_done};
ghost use Rattle.statistics.specs.Statistics.{start, accumulated, stats_per_marker, stats_at};
ghost use Rattle.standardise.specs.Standardised.{value};
ghost use Rattle.standardise.specs.Says.{standardise_says};
ghost use Rattle.standardise.specs.Private.{BuffersFit, nth, written, Processes, FindsStats, counted_rows, accumulator_at};
ghost use Rattle.standardise.specs.Private.{tile_width, accumulators_set, AreLong, TileStep, scale_at, scale_of, scaled_at, markers_applied, all_applied};

use crate::answers::StandardiseError;
use crate::{answers, stats_buffer};
use statistics::{Accumulator, Scale};

// How many neighbouring markers are accumulated at a time in animal order.
const TILE: usize = 1024;

// The accumulators of the markers of a tile: three arrays, each walked from front to back.
// With one array of structs the loop over four animals took 1.13 of the time (the same loops in C, clang 14 -O3, 2 % missing).
#[derive(Drop)]
struct Accumulators {
    counts: [f64; TILE],
    sums: [f64; TILE],
    squares: [f64; TILE],
}

// The statistics of the markers of a tile, with the reciprocals of the deviations: three arrays, each walked from front to back.
// With one array of structs the loop over a row took 1.22 of the time (the same loops in C, clang 14 -O3, 2 % missing).
#[derive(Drop)]
struct Scales {
    means: [f64; TILE],
    deviations: [f64; TILE],
    factors: [f64; TILE],
}

impl Accumulators {
    fn new() -> Accumulators
        ensures { (j : ℕ) → j < tile_width → accumulator_at result j ≡ start }
    {
        Accumulators {
            counts: [0.0; TILE],
            sums: [0.0; TILE],
            squares: [0.0; TILE],
        }
    }

    // That of marker j of the tile.
    fn at(&self, j: usize) -> Accumulator
        requires { j < tile_width }
        ensures value { result ≡ accumulator_at self.now j }
        ensures long { AreLong self.now }
    {
        Accumulator {
            count: self.counts[j],
            sum: self.sums[j],
            squares: self.squares[j],
        }
    }

    fn put(&mut self, j: usize, a: Accumulator)
        requires { j < tile_width }
        ensures { self.new ≡ accumulators_set self.old j a }
    {
        self.counts[j] = a.count;
        self.sums[j] = a.sum;
        self.squares[j] = a.squares;
    }

    // Counts `width` neighbouring values of each of ROWS neighbouring animals, whose values stand `stride` apart, the first ones from `start`
    // on, each into its marker's accumulator.
    fn count_rows<const ROWS: usize>(
        &mut self,
        val: &[f64],
        start: usize,
        stride: usize,
        width: usize,
    )
        requires { ((r : ℕ) → r < ROWS → start + r * stride + width ≤ length val.now) × (width ≤ tile_width) }
        ensures { TileStep width (λ j. counted_rows binary64 val.now (start + j) stride ROWS) self.old self.new }
    {
        for j in 0..width {
            let mut a = self.at(j);
            for r in 0..ROWS {
                a = a.add_value(val[start + j + r * stride]);
            }
            self.put(j, a);
        }
    }

    // Counts `width` neighbouring markers from marker `base` on, animal by animal, four of them at a time.
    fn count_tile(
        &mut self,
        val: &[f64],
        iid_count: usize,
        sid_count: usize,
        base: usize,
        width: usize,
    )
        requires { (iid_count * sid_count ≡ length val.now) × (base + width ≤ sid_count) × (width ≤ tile_width)
            × ((j : ℕ) → j < width → accumulator_at self.old j ≡ start) }
        ensures { (j : ℕ) → j < width → accumulator_at self.new j
            ≡ accumulated binary64 (λ i. value true iid_count sid_count val.now i (base + j)) iid_count }
    {
        for four in 0..iid_count / 4 {
            self.count_rows::<4>(val, four * 4 * sid_count + base, sid_count, width);
        }
        for i in iid_count / 4 * 4..iid_count {
            self.count_rows::<1>(val, i * sid_count + base, sid_count, width);
        }
    }
}

impl Scales {
    fn new() -> Scales {
        Scales {
            means: [0.0; TILE],
            deviations: [0.0; TILE],
            factors: [0.0; TILE],
        }
    }

    // Those of `width` neighbouring markers from marker `base` on.
    fn load(&mut self, stats: &[f64], base: usize, width: usize)
        requires { ((base + width) * stats_per_marker ≤ length stats.now) × (width ≤ tile_width) }
        ensures { (j : ℕ) → j < width → scale_at self.new j ≡ scale_of binary64 (stats_at stats.now (base + j)) }
    {
        for j in 0..width {
            let s = stats_buffer::get_stats(stats, base + j);
            self.means[j] = s.mean;
            self.deviations[j] = s.deviation;
            self.factors[j] = s.scale().factor;
        }
    }

    // That of marker j of the tile.
    fn at(&self, j: usize) -> Scale
        requires { j < tile_width }
        ensures { result ≡ scale_at self.now j }
    {
        Scale {
            mean: self.means[j],
            factor: self.factors[j],
            infinite: statistics::is_infinite(self.deviations[j]),
        }
    }

    // Standardises neighbouring values of one animal, each by its marker's statistics.
    fn apply_row(&self, row: &mut [f64])
        requires { length row.old ≤ tile_width }
        ensures { row.new ≡ written row.old (λ j. j) (λ j. scaled_at binary64 self.now j (nth row.old j)) (length row.old) }
    {
        for j in 0..row.len() {
            row[j] = self.at(j).scaled(row[j]);
        }
    }
}

// The statistics of all markers in animal order.
// `BuffersFit` is required here and in four functions more. In a struct that holds both buffers it can be a ghost field (tried, it proves),
// but each method would borrow both to write, and its contract would say in place of this line which buffer and that the counts stay.
fn all_stats(
    val: &[f64],
    iid_count: usize,
    sid_count: usize,
    stats: &mut [f64],
) -> Result<(), StandardiseError>
    requires { BuffersFit iid_count sid_count val.now stats.old }
    ensures { FindsStats binary64 true iid_count sid_count val.now false stats.old
        (standardise_says result) stats.new }
{
    let mut lowest = Ok(());
    for base in (0..sid_count).step_by(TILE) {
        let width = TILE.min(sid_count - base);
        let mut tile = Accumulators::new();
        tile.count_tile(val, iid_count, sid_count, base, width);
        for j in 0..width {
            let found = tile.at(j).find_stats();
            let m = base + j;
            stats_buffer::put_found(stats, m, found);
            lowest = lowest.and(answers::marker_answer(m, found));
        }
    }
    lowest
}

// Standardises `width` neighbouring markers from marker `base` on, animal by animal.
fn apply_tile(
    val: &mut [f64],
    iid_count: usize,
    sid_count: usize,
    base: usize,
    width: usize,
    stats: &[f64],
)
    requires { BuffersFit iid_count sid_count val.old stats.now × (base + width ≤ sid_count) × (width ≤ tile_width) }
    ensures { val.new ≡ markers_applied binary64 iid_count sid_count stats.now base width val.old }
{
    let mut tile = Scales::new();
    tile.load(stats, base, width);
    for i in 0..iid_count {
        let start = i * sid_count + base;
        tile.apply_row(&mut val[start..start + width]);
    }
}

// Standardises all markers in animal order.
fn apply_all(val: &mut [f64], iid_count: usize, sid_count: usize, stats: &[f64])
    requires { BuffersFit iid_count sid_count val.old stats.now }
    ensures { val.new ≡ all_applied binary64 iid_count sid_count stats.now val.old }
{
    for base in (0..sid_count).step_by(TILE) {
        apply_tile(
            val,
            iid_count,
            sid_count,
            base,
            TILE.min(sid_count - base),
            stats,
        );
    }
}

// Animal order: the statistics of all markers, then the values, each pass along the rows.
pub(crate) fn process_all_iids(
    val: &mut [f64],
    iid_count: usize,
    sid_count: usize,
    apply_in_place: bool,
    use_stats: bool,
    stats: &mut [f64],
) -> Result<(), StandardiseError>
    requires { BuffersFit iid_count sid_count val.old stats.old }
    ensures { Processes binary64 true iid_count sid_count val.old use_stats stats.old apply_in_place
        (standardise_says result) val.new stats.new }
{
    let answer = if use_stats {
        Ok(())
    } else {
        all_stats(val, iid_count, sid_count, stats)
    };
    if apply_in_place && answer.is_ok() {
        apply_all(val, iid_count, sid_count, stats);
    }
    answer
}
