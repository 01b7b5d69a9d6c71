// What the entries of a list add to where a call stands.
ghost use Rattle.std.specs.Prelude.{◌≡◌, not, ◌&&◌, cond, length, get_or, pos, ◌<◌, ◌≤◌};
ghost use Rattle.entries.specs.Entry.{means, in_order};
ghost use Rattle.calls.specs.Places.{is_block, IsPart};
ghost use Rattle.calls.specs.Lists.{count_of, is_along_block, at_once, with_bytes, with_places};

use crate::{Part, Shape, are_blocks, part_of};
use entries::Item;

// How many items of a kind a file has.
fn count_of<I: Item>(shape: Shape) -> usize
    ensures { result ≡ count_of I.is_animal shape }
{
    if I::is_animal() {
        return shape.iids;
    }
    shape.sids
}

// What an entry of a list adds.
pub fn entry_part<I: Item>(shape: Shape, entry: i64) -> Part
    ensures { IsPart (is_block shape.mode1 I.is_animal) shape.width (means (count_of I.is_animal shape) entry) result }
{
    let item: I = entries::item_of(count_of::<I>(shape), entry);
    part_of::<I>(shape, item)
}

// Whether the entries of a list are the items of a block, in order.
pub fn is_along_block<I: Item>(shape: Shape, list: &[i64]) -> bool
    ensures { result ≡ is_along_block shape I.is_animal list.now }
{
    !are_blocks::<I>(shape) && entries::is_in_order(count_of::<I>(shape), list)
}

// How many entries are resolved at once: 2,048 neighbouring items, or 128 neighbouring blocks.
pub fn at_once<I: Item>(shape: Shape) -> usize
    ensures { (result ≡ at_once shape I.is_animal) × (0 < result) × (result ≤ 2048) }
{
    if are_blocks::<I>(shape) { 128 } else { 2048 }
}

// What each entry of a part of a list adds to the byte and to the place in it.
// Two arrays, since an array of `Part` was measured slower: 32,768 bytes in place of 18,432, and the loops of call_counts' `tally_parts` and of bed_read's
// `read_line` for f64 (in C, gcc -O3) take 1.03 to 1.04 times as long.
#[derive(Drop)]
pub struct Parts {
    pub places: [u8; 2048],
    pub bytes: [usize; 2048],
}

impl Parts {
    // What the entries of a list add, of the first 2,048 of a longer one; past the list the parts stay.
    // Not inlined: inlined, one marker of a mode 0 file was measured to take 1.24 times as long.
    #[inline(never)]
    pub fn resolve<I: Item>(&mut self, shape: Shape, list: &[i64])
        ensures { (self.new.bytes ≡ with_bytes shape I.is_animal list.now self.old.bytes)
            × (self.new.places ≡ with_places shape I.is_animal list.now self.old.places) }
    {
        for k in 0..list.len().min(2048) {
            let part = entry_part::<I>(shape, list[k]);
            self.bytes[k] = part.byte;
            self.places[k] = part.place as u8;
        }
    }
}
