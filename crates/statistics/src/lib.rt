// The statistics of a marker of f64, and a value standardised by them.
#![tactic(auto)]

ghost use Rattle.std.specs.Prelude.{◌≡◌};
ghost use Rattle.std.specs.Float.{binary64};
ghost use Rattle.std.specs.Float.Ieee.{div};
ghost use Rattle.statistics.specs.Statistics.{one, counted, stats_from, is_infinite, scaled_by};

// Count, sum and sum of squares over a marker's values that are no NaN.
#[derive(Clone, Copy, Debug, Default, PartialEq)]
pub struct Accumulator {
    pub count: f64,
    pub sum: f64,
    pub squares: f64,
}

// The pair of mean and deviation found for a marker.
#[derive(Clone, Copy, Debug, PartialEq)]
pub struct Stats {
    pub mean: f64,
    pub deviation: f64,
}

// The statistics that there are for a marker, and how many values were observed: none is known of lent ones.
#[derive(Clone, Copy, Debug, PartialEq)]
pub struct MarkerStats {
    pub stats: Stats,
    pub observed: Option<f64>,
}

// Why a marker has no statistics: 13, or 14.
#[derive(Clone, Copy, Debug, PartialEq, Eq)]
pub enum MarkerError {
    NoIndividuals,
    IllegalSnpMean,
}

// What standardises a value: the mean, the reciprocal of the deviation, and whether the deviation is infinite.
#[derive(Clone, Copy, Debug, PartialEq)]
pub struct Scale {
    pub mean: f64,
    pub factor: f64,
    pub infinite: bool,
}

impl Accumulator {
    // One value more.
    pub fn add_value(self, v: f64) -> Accumulator
        ensures { result ≡ counted binary64 self v }
    {
        if v.is_nan() {
            return self;
        }
        Accumulator {
            count: self.count + 1.0,
            sum: self.sum + v,
            squares: self.squares + v * v,
        }
    }

    // What a whole accumulator says of its marker.
    pub fn find_stats(self) -> Result<MarkerStats, MarkerError>
        ensures { result ≡ stats_from binary64 self }
    {
        if self.count < 1.0 {
            return Err(MarkerError::NoIndividuals);
        }
        let mean = self.sum / self.count;
        if mean.is_nan() {
            return Err(MarkerError::IllegalSnpMean);
        }
        let variance = self.squares / self.count - mean * mean;
        let root = root::root_f64(variance);
        let deviation = if root.is_nan() || root <= 0.0 {
            f64::INFINITY
        } else {
            root
        };
        Ok(MarkerStats {
            stats: Stats { mean, deviation },
            observed: Some(self.count),
        })
    }
}

// Whether x is an infinity. By two comparisons: `f64::is_infinite` subtracts too, and applying in animal order took 1.14 of the time with it.
pub fn is_infinite(x: f64) -> bool
    ensures { result ≡ is_infinite x }
{
    x == f64::INFINITY || x == f64::NEG_INFINITY
}

impl Stats {
    // Worked out once for a marker.
    pub fn scale(self) -> Scale
        ensures mean { result.mean ≡ self.mean }
        ensures factor { result.factor ≡ div binary64 one self.deviation }
        ensures infinite { result.infinite ≡ is_infinite self.deviation }
    {
        Scale {
            mean: self.mean,
            factor: 1.0 / self.deviation,
            infinite: is_infinite(self.deviation),
        }
    }
}

impl Scale {
    // A value standardised: 0 for a NaN, and where the deviation is infinite.
    pub fn scaled(self, v: f64) -> f64
        ensures { result ≡ scaled_by binary64 self.mean self.factor self.infinite v }
    {
        if self.infinite || v.is_nan() {
            return 0.0;
        }
        (v - self.mean) * self.factor
    }
}
