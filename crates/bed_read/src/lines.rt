// The lines of a matrix and the places of each line, by the two lists.
ghost use Rattle.std.specs.Prelude.{◌≡◌, true, not, ◌+◌, ◌<◌, ◌≤◌, length};
ghost use Rattle.calls.specs.Places.{is_block};
ghost use Rattle.calls.specs.Lists.{Ready, IsEntryPart};
ghost use Rattle.bed_read.specs.Private.{FourBytes};

use calls::{Part, Shape};
use entries::Item;
use std::array;
use std::marker::PhantomData;

// An accepted file and two good lists: `outer` names the lines, `inner` the places of each. One is of animals, the other of markers.
#[derive(Drop)]
pub(crate) struct Lines<'a, O: Item, I: Item> {
    pub file: &'a [u8],
    pub shape: Shape,
    pub outer: &'a [i64],
    pub inner: &'a [i64],
    pub items: PhantomData<(O, I)>,
    ghost other: { I.is_animal ≡ not O.is_animal },
    ghost ready: { Ready file.now shape O.is_animal outer.now inner.now },
}

impl<'a, O: Item, I: Item> Lines<'a, O, I> {
    // What entry o of the outer list adds.
    pub(crate) fn outer_part(&self, o: usize) -> Part
        requires { o < length self.now.outer.now }
        ensures { IsEntryPart self.now.shape O.is_animal self.now.outer.now o result }
    {
        calls::entry_part::<O>(self.shape, self.outer[o])
    }

    // How many lines may be read four at a time, for n places of each: all where a line is a block and there are two places, else none.
    pub(crate) fn lines_by_four(&self, n: usize) -> usize
        ensures { (result ≤ length self.now.outer.now)
            × (0 < result → (is_block self.now.shape.mode1 O.is_animal ≡ true) × (2 ≤ n)) }
    {
        if n < 2 {
            return 0;
        }
        if calls::are_blocks::<O>(self.shape) {
            return self.outer.len();
        }
        0
    }

    // The first bytes of four blocks.
    pub(crate) fn four_starts(&self, o: usize) -> [usize; 4]
        requires { o + 4 ≤ length self.now.outer.now }
        ensures { FourBytes self.now.shape O.is_animal self.now.outer.now o result }
    {
        array::from_fn(|j| self.outer_part(o + j).byte)
    }
}
