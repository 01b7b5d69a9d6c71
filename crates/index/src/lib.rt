// What an index chooses among `count` items, as a list of numbers in a lent buffer.
#![tactic(auto)]

ghost use Rattle.std.specs.Prelude.{◌≡◌, length};
ghost use Rattle.index.specs.Checks.{index_answer, index_buffer};
ghost use Rattle.index.specs.Says.{list_says, list_refusal, range_refusal};
ghost use Rattle.index.specs.Private.{slice_refusal, Listed};

mod marks;
mod range;
mod slice;

pub use range::{Bounds, RangeAny, RangeError};
pub use slice::SliceInfo1;
use slice::{RangeNdSlice, SliceError};

// The kinds of an index. Marks are bytes, since C lends bytes.
#[derive(Clone, Copy, Debug, PartialEq, Eq)]
pub enum Index<'a> {
    All,
    One(i64),
    Vec(&'a [i64]),
    VecBool(&'a [u8]),
    RangeAny(RangeAny),
    NDSliceInfo(SliceInfo1),
}

// What `Index::to_vec` refuses: 18, 8, 9, 10, 11, 12, 19.
#[derive(Clone, Copy, Debug, PartialEq, Eq)]
pub enum ListError {
    CountTooLarge,
    BoolArrayVectorWrongLength,
    StepZero,
    StartGreaterThanCount,
    EndGreaterThanCount,
    StartGreaterThanEnd,
    ListTooShort,
}

impl From<RangeError> for ListError {
    ghost from_gives = { λ range list. list_refusal list ≡ range_refusal range };

    fn from(error: RangeError) -> ListError {
        match error {
            RangeError::CountTooLarge => ListError::CountTooLarge,
            RangeError::StartGreaterThanEnd => ListError::StartGreaterThanEnd,
        }
    }
}

impl From<SliceError> for ListError {
    ghost from_gives = { λ slice list. list_refusal list ≡ slice_refusal slice };

    fn from(error: SliceError) -> ListError {
        match error {
            SliceError::StepZero => ListError::StepZero,
            SliceError::StartGreaterThanCount => ListError::StartGreaterThanCount,
            SliceError::EndGreaterThanCount => ListError::EndGreaterThanCount,
        }
    }
}

// A list into the buffer, as it is. Place by place: `copy_from_slice`, of a list that stands in an index, would be `memmove`, which nothing else here needs.
fn vec_to_vec(vec: &[i64], list: &mut [i64]) -> Result<usize, ListError>
    ensures { Listed vec.now list.old (list_says result) list.new }
{
    if vec.len() > list.len() {
        return Err(ListError::ListTooShort);
    }
    for k in 0..vec.len() {
        list[k] = vec[k];
    }
    Ok(vec.len())
}

impl<'a> Index<'a> {
    // The numbers that an index chooses among `count` items, into the buffer `list`; it answers how many.
    pub fn to_vec(self, count: usize, list: &mut [i64]) -> Result<usize, ListError>
        ensures { (list_says result ≡ index_answer self.entry count (length list.old))
            × (list.new ≡ index_buffer self.entry count list.old) }
    {
        if count > answer::COUNT_LIMIT {
            return Err(ListError::CountTooLarge);
        }
        match self {
            Index::All => slice::consecutive(0..count).to_vec(list),
            Index::One(one) => vec_to_vec(&[one], list),
            Index::Vec(vec) => vec_to_vec(vec, list),
            Index::VecBool(marks) => {
                if marks.len() != count {
                    return Err(ListError::BoolArrayVectorWrongLength);
                }
                marks::marked_to_vec(marks, list)
            }
            Index::RangeAny(range) => {
                let found = range.to_range(count)?;
                slice::consecutive(found.start..found.end).to_vec(list)
            }
            Index::NDSliceInfo(nd_slice_info) => {
                let slice = RangeNdSlice::new(nd_slice_info, count)?;
                slice.to_vec(list)
            }
        }
    }
}
