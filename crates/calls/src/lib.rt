// Where the calls of a file stand.
#![tactic(auto)]

mod parts;

ghost use Rattle.std.specs.Prelude.{◌≡◌, true, false, ◌+◌, ◌*◌, ◌/◌, ◌%◌, leb, take, drop};
ghost use Rattle.codes.specs.Code.{item_code};
ghost use Rattle.bed_file.specs.File.{is_mode1};
ghost use Rattle.calls.specs.Calls.{call_code};
ghost use Rattle.calls.specs.Places.{IsShape, is_block, IsPart};

use entries::{IidIndex, Item, SidIndex};
pub use parts::{Parts, at_once, entry_part, is_along_block};

// How a file holds its calls: its mode, the width of a block, the counts of animals and markers.
#[derive(Clone, Copy, Debug, PartialEq, Eq)]
pub struct Shape {
    pub mode1: bool,
    pub width: usize,
    pub iids: usize,
    pub sids: usize,
}

// What an animal or a marker adds to where a call stands: to the byte, and to the place in it.
#[derive(Clone, Copy, Debug, PartialEq, Eq)]
pub struct Part {
    pub byte: usize,
    pub place: usize,
}

fn is_mode_1(file: &[u8]) -> bool
    ensures { result ≡ is_mode1 file.now }
{
    file.len() > 2 && file[2] == 1
}

// The shape of a file for two counts.
pub fn shape_of(file: &[u8], iid_count: usize, sid_count: usize) -> Shape
    ensures { IsShape file.now iid_count sid_count result }
{
    let mode1 = is_mode_1(file);
    Shape {
        mode1,
        width: blocks::block_width(if mode1 { iid_count } else { sid_count }),
        iids: iid_count,
        sids: sid_count,
    }
}

// What the number of an item adds.
fn item_part(item: usize) -> Part
    ensures { (result.byte ≡ item / 4) × (result.place ≡ item % 4) }
{
    Part {
        byte: item / 4,
        place: item % 4,
    }
}

// Whether 64 bits hold the first byte of a block: no division where both numbers are below 2^32.
fn start_fits(width: usize, block: usize) -> bool
    ensures { result ≡ leb (width * block) 18446744073709551612 }
{
    (width < 4294967296 && block < 4294967296)
        || blocks::product_at_most(width, block, 18446744073709551612)
}

// What the number of a block adds: its first byte, or 2^64 − 1 if that passes 64 bits.
#[tactic(auto, using(crate::proofs::PlaceLaws::block_adds, crate::proofs::PlaceLaws::block_past))]
fn block_part(width: usize, block: usize) -> Part
    ensures { IsPart true width block result }
{
    if start_fits(width, block) {
        let start = 3 + block * width;
        return Part {
            byte: start,
            place: 0,
        };
    }
    Part {
        byte: 18446744073709551615,
        place: 0,
    }
}

// An animal is an item of every block in mode 1, a block in mode 0; a marker is a block in mode 1, an item in mode 0.
pub fn are_blocks<I: Item>(shape: Shape) -> bool
    ensures { result ≡ is_block shape.mode1 I.is_animal }
{
    shape.mode1 != I::is_animal()
}

// What the number of an animal or of a marker adds.
pub fn part_of<I: Item>(shape: Shape, item: I) -> Part
    ensures { IsPart (is_block shape.mode1 I.is_animal) shape.width (I.number item) result }
{
    if are_blocks::<I>(shape) {
        return block_part(shape.width, item.number());
    }
    item_part(item.number())
}

// The code of an item of a block of `width` bytes; 0 if the block or the file has no such byte.
fn item_code(file: &[u8], width: usize, block: usize, item: usize) -> u8
    ensures { result ≡ item_code (take width (drop (3 + block * width) file.now)) item }
{
    if item / 4 < width {
        let start = block_part(width, block).byte;
        if start < file.len() {
            if item / 4 < file.len() - start {
                let byte = file[start + item / 4];
                return codes::code_of_item(byte, item);
            }
        }
    }
    0
}

// The code of the call of an animal at a marker.
#[tactic(auto, using(crate::proofs::CallLaws::call_found))]
pub fn call_code(
    file: &[u8],
    iid_count: usize,
    sid_count: usize,
    iid: IidIndex,
    sid: SidIndex,
) -> u8
    ensures { result ≡ call_code file.now iid_count sid_count iid.0 sid.0 }
{
    let shape = shape_of(file, iid_count, sid_count);
    if shape.mode1 {
        return item_code(file, shape.width, sid.0, iid.0);
    }
    item_code(file, shape.width, iid.0, sid.0)
}
