// The statistics buffer: a marker's mean, its deviation and how many of its values were observed, marker after marker.
//
// `StatsIn` is a clause: of a struct of the buffer and a marker there would be two, since `Scales::load` may only read the buffer and the
// others write it.
ghost use Rattle.std.specs.Prelude.{◌≡◌, ◌+◌, ◌*◌, get_or};
ghost use Rattle.std.specs.Float.{nan};
ghost use Rattle.statistics.specs.Statistics.{stats_per_marker, in_places, stats_at};
ghost use Rattle.standardise.specs.Private.{StatsIn, written, stored_stats};

use statistics::{MarkerError, MarkerStats, Stats};

// How many numbers a marker has in the statistics buffer: mean, deviation, observed count.
pub const STATS_PER_MARKER: usize = 3;

// The lent statistics that stand in the buffer for marker m; the observed count is not read.
pub(crate) fn get_stats(stats: &[f64], m: usize) -> Stats
    requires { StatsIn stats.now m }
    ensures { result ≡ stats_at stats.now m }
{
    let at = m * STATS_PER_MARKER;
    Stats {
        mean: stats[at],
        deviation: stats[at + 1],
    }
}

fn put_stats(stats: &mut [f64], m: usize, s: Stats, observed: f64)
    requires { StatsIn stats.old m }
    ensures { stats.new ≡ written stats.old (λ c. m * stats_per_marker + c) (λ c. get_or (in_places s observed) c nan) stats_per_marker }
{
    let at = m * STATS_PER_MARKER;
    stats[at] = s.mean;
    stats[at + 1] = s.deviation;
    stats[at + 2] = observed;
}

// Stores what is found for marker m; lent statistics stay, and a refused marker keeps its old ones.
pub(crate) fn put_found(stats: &mut [f64], m: usize, found: Result<MarkerStats, MarkerError>)
    requires { StatsIn stats.old m }
    ensures { stats.new ≡ stored_stats found m stats.old }
{
    if let Ok(found) = found {
        if let Some(observed) = found.observed {
            put_stats(stats, m, found.stats, observed);
        }
    }
}
