// The search for a bad value.
ghost use Rattle.std.specs.Prelude.{◌≡◌, ℕ, ◌<◌, false, length};
ghost use Rattle.bed_write.specs.Private.{by_tests, Finds, bad_says};

use crate::matrix::Matrix;
use crate::value_codes;
use crate::value_codes::EncodeVal;
use codes::Coding;
use entries::{IidIndex, SidIndex};

// Whether any value is bad, looked at in the order in which they stand, and to the end, so that several are looked at at once.
fn any_bad<T: EncodeVal>(val: &[T], coding: Coding<T>) -> bool
    ensures { result ≡ false → (k : ℕ) → k < length val.now → by_tests T.width coding val.now k < 4 }
{
    let mut bad = false;
    for &value in val {
        bad |= value_codes::code_or_four(value, coding) > 3;
    }
    bad
}

// The first marker, and in it the first animal, with a bad value.
fn first_bad<T: EncodeVal>(matrix: &Matrix<T>, coding: Coding<T>) -> Option<(IidIndex, SidIndex)>
    ensures { Finds T.width coding matrix.now.animal_order matrix.now.iid_count matrix.now.sid_count
        matrix.now.val.now (bad_says result) }
{
    'markers: {
        for marker in 0..matrix.sid_count {
            for animal in 0..matrix.iid_count {
                let (iid, sid) = (IidIndex(animal), SidIndex(marker));
                if value_codes::code_or_four(matrix.val[matrix.place(iid, sid)], coding) > 3 {
                    break 'markers Some((iid, sid));
                }
            }
        }
        None
    }
}

// The same, found at once where no value is bad.
pub(crate) fn search<T: EncodeVal>(
    matrix: &Matrix<T>,
    coding: Coding<T>,
) -> Option<(IidIndex, SidIndex)>
    ensures { Finds T.width coding matrix.now.animal_order matrix.now.iid_count matrix.now.sid_count
        matrix.now.val.now (bad_says result) }
{
    if any_bad(matrix.val, coding) {
        first_bad(matrix, coding)
    } else {
        None
    }
}
