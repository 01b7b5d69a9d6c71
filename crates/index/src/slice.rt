// Slices: a start and an end that may count from the end, and a step.
ghost use Rattle.std.specs.Prelude.{◌≡◌, ◌+◌, ◌-◌, ◌^◌, ◌≤◌, ◌<◌, ℤ, pos, List, length, slice_index_or};
ghost use Rattle.answer.specs.Answer.{count_limit};
ghost use Rattle.answer.specs.Lists.{tabulate};
ghost use Rattle.index.specs.Numbers.{magnitude, from_count, walk};
ghost use Rattle.index.specs.Says.{list_says};
ghost use Rattle.index.specs.Private.{MakesSlice, Listed};

use crate::ListError;
use std::marker::Model;
use std::ops::Range;

// A slice, whose end may be absent.
#[derive(Clone, Copy, Debug, PartialEq, Eq)]
pub struct SliceInfo1 {
    pub start: i64,
    pub end: Option<i64>,
    pub step: i64,
}

// The magnitude of a number, -2^63 among them: the clauses' `magnitude`, by the library's method, as the type of a count.
fn magnitude(e: i64) -> usize
    ensures { result ≡ magnitude e }
{
    e.unsigned_abs() as usize
}

// The place that a slice's start or end means.
#[tactic(auto, using(crate::proofs::SignedLaws::counts_back, crate::proofs::SignedLaws::counts_on))]
fn from_count(e: i64, count: usize) -> usize
    requires { magnitude e ≤ count }
    ensures { result ≡ from_count count e }
{
    let size = magnitude(e);
    if e < 0 { count - size } else { size }
}

// A slice whose start and end are counted from 0, and the direction of its step: the list of its numbers.
#[derive(Drop)]
pub(crate) struct RangeNdSlice {
    start: usize,
    end: usize,
    step: usize,
    is_reversed: bool,
}

impl Model for RangeNdSlice {
    ghost Value = { List ℤ };

    ghost view = { λ s. walk s.start s.end s.step s.is_reversed };

    // The step is not 0, and the numbers fit.
    ghost invariant = { λ s. (0 < s.step) × (s.step ≤ 2 ^ 63) × (s.end ≤ count_limit) };
}

// What `RangeNdSlice::new` refuses: 9, 10, 11.
#[derive(Clone, Copy, Debug, PartialEq, Eq)]
pub(crate) enum SliceError {
    StepZero,
    StartGreaterThanCount,
    EndGreaterThanCount,
}

impl RangeNdSlice {
    // The slice's checks, and what its start, end and step mean.
    pub(crate) fn new(nd_slice_info: SliceInfo1, count: usize) -> Result<RangeNdSlice, SliceError>
        requires { count ≤ count_limit }
        ensures { MakesSlice nd_slice_info count result }
    {
        let step = magnitude(nd_slice_info.step);
        if step == 0 {
            return Err(SliceError::StepZero);
        }
        let is_reversed = nd_slice_info.step < 0;
        if magnitude(nd_slice_info.start) > count {
            return Err(SliceError::StartGreaterThanCount);
        }
        let start = from_count(nd_slice_info.start, count);
        let end = match nd_slice_info.end {
            None => count,
            Some(e) => {
                if magnitude(e) > count {
                    return Err(SliceError::EndGreaterThanCount);
                }
                from_count(e, count)
            }
        };
        Ok(RangeNdSlice {
            start,
            end,
            step,
            is_reversed,
        })
    }

    // How many numbers it has.
    #[tactic(auto, using(crate::proofs::StepLaws::len_is, crate::proofs::StepLaws::none), unfolding(crate::proofs::StepLaws::steps_below))]
    fn len(&self) -> usize
        ensures { result ≡ length self.now }
    {
        if self.start >= self.end {
            return 0;
        }
        (self.end - self.start + self.step - 1) / self.step
    }

    // The number at place k.
    fn number_at(&self, k: usize) -> i64
        requires { k < length self.now }
        ensures { result ≡ slice_index_or self.now k (pos 0) }
    {
        let distance = k * self.step;
        if self.is_reversed {
            (self.end - 1 - distance) as i64
        } else {
            (self.start + distance) as i64
        }
    }

    // Its numbers into the buffer.
    pub(crate) fn to_vec(&self, list: &mut [i64]) -> Result<usize, ListError>
        ensures { Listed self.now list.old (list_says result) list.new }
    {
        let n = self.len();
        let room = list.len();
        if n > room {
            return Err(ListError::ListTooShort);
        }
        for k in 0..n {
            list[k] = self.number_at(k);
        }
        Ok(n)
    }
}

// start, start + 1 and so on below end.
#[tactic(auto, using(crate::proofs::StepLaws::consecutive))]
pub(crate) fn consecutive(range: Range<usize>) -> RangeNdSlice
    requires { range.end ≤ count_limit }
    ensures { result ≡ tabulate (range.end - range.start) (λ k. pos (range.start + k)) }
{
    RangeNdSlice {
        start: range.start,
        end: range.end,
        step: 1,
        is_reversed: false,
    }
}
