// Ranges.
ghost use Rattle.std.specs.Prelude.{◌≡◌};
ghost use Rattle.index.specs.Checks.{range_answer};
ghost use Rattle.index.specs.Says.{range_says};

// A range, each of whose bounds may be absent.
#[derive(Clone, Copy, Debug, PartialEq, Eq)]
pub struct RangeAny {
    pub start: Option<usize>,
    pub end: Option<usize>,
}

// Where a range begins, and where it ends.
#[derive(Clone, Copy, Debug, PartialEq, Eq)]
pub struct Bounds {
    pub start: usize,
    pub end: usize,
}

// What `RangeAny::to_range` refuses: 18, or 12.
#[derive(Clone, Copy, Debug, PartialEq, Eq)]
pub enum RangeError {
    CountTooLarge,
    StartGreaterThanEnd,
}

impl RangeAny {
    // The start and the end of a range.
    #[tactic(auto, using(crate::proofs::RangeLaws::range_too_large, crate::proofs::RangeLaws::range_above, crate::proofs::RangeLaws::range_is))]
    pub fn to_range(self, count: usize) -> Result<Bounds, RangeError>
        ensures { range_says result ≡ range_answer self count }
    {
        let start = self.start.unwrap_or(0);
        let end = self.end.unwrap_or(count);
        if count.max(start).max(end) > answer::COUNT_LIMIT {
            return Err(RangeError::CountTooLarge);
        }
        if start > end {
            return Err(RangeError::StartGreaterThanEnd);
        }
        Ok(Bounds { start, end })
    }
}
