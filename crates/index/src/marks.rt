// Marks: the items whose mark is not 0 are chosen.
ghost use Rattle.std.specs.Prelude.{◌≡◌, length};
ghost use Rattle.index.specs.Numbers.{marked};
ghost use Rattle.index.specs.Says.{list_says};
ghost use Rattle.index.specs.Private.{Listed};

use crate::ListError;

// How many marks are not 0. A loop, since `filter` and `count` took 1.7 times as long.
fn count_marked(marks: &[u8]) -> usize
    ensures { result ≡ length (marked marks.now) }
{
    let mut n: usize = 0;
    for &mark in marks {
        if mark != 0 {
            n += 1;
        }
    }
    n
}

// The places of the marks that are not 0 into the buffer.
pub(crate) fn marked_to_vec(marks: &[u8], list: &mut [i64]) -> Result<usize, ListError>
    ensures { Listed (marked marks.now) list.old (list_says result) list.new }
{
    let n = count_marked(marks);
    if n > list.len() {
        return Err(ListError::ListTooShort);
    }
    // Over `list.iter_mut().zip(marks.iter().enumerate().filter(..))` the proofs of `loop-place-preserved` and `returns` did not close: what the buffer holds later is told by the steps of the iterators.
    let mut at: usize = 0;
    for (i, &mark) in marks.iter().enumerate() {
        if mark != 0 {
            list[at] = i as i64;
            at += 1;
        }
    }
    Ok(n)
}
