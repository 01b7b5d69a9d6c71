// A file of mode 0: the calls of four animals at a marker are gathered into a byte.
ghost use Rattle.std.specs.Prelude.{◌≡◌, false, ◌+◌, ◌<◌, ◌^◌};
ghost use Rattle.bed_write.specs.Groups.{in_group};
ghost use Rattle.canonical.specs.Canonical.{canonical_file};
ghost use Rattle.canonical.specs.Private.{Begun, Starts, group_code, GroupInside, four_byte};

use crate::accepted::Accepted;
use bed_write::TILE;
use calls::{Part, Shape};
use codes::{CodeTable, Group, PAD};
use entries::{IidIndex, SidIndex};
use std::array;

// The first bytes of the blocks of four animals.
fn four_starts(shape: Shape, first: usize) -> [usize; 4]
    requires { first + 4 < 2 ^ 64 }
    ensures { Starts shape first result }
{
    array::from_fn(|k| calls::part_of::<IidIndex>(shape, IidIndex(first + k)).byte)
}

// One item of the blocks of four animals, of which `left` are there.
#[derive(Drop)]
struct Across<'a> {
    file: &'a [u8],
    starts: &'a [usize; 4],
    left: usize,
    item: Part,
    codes: &'a CodeTable,
    ghost inside: { GroupInside file.now starts.now left item },
}

impl<'a> Across<'a> {
    // The code of the item in block k.
    fn code(&self, k: usize) -> u8
        requires { (k < 4) × (k < self.now.left) }
        ensures { result ≡ group_code self.now.file.now self.now.starts.now self.now.item k }
    {
        self.codes.code_of_item(self.file[self.starts[k] + self.item.byte], self.item.place)
    }

    // The same if there is a block k, else a pad. `Strided` of bed_write asks likewise: one function for both would be passed the code of k as a closure, and public functions ask nothing.
    fn held(&self, k: usize) -> u8
        requires { k < 4 }
        ensures { result ≡ in_group self.now.left (group_code self.now.file.now self.now.starts.now self.now.item) k }
    {
        if k < self.left { self.code(k) } else { PAD }
    }

    // The byte of the four codes.
    fn byte(&self) -> u8
        ensures { result ≡ four_byte (in_group self.now.left (group_code self.now.file.now self.now.starts.now self.now.item)) }
    {
        if self.left > 3 {
            return codes::byte_of(Group {
                c0: self.code(0),
                c1: self.code(1),
                c2: self.code(2),
                c3: self.code(3),
            });
        }
        codes::byte_of(Group {
            c0: self.held(0),
            c1: self.held(1),
            c2: self.held(2),
            c3: PAD,
        })
    }
}

// The canonical file: tile by tile, and in it four animals at a time. `write_val` goes by the same tiles: one function for both would be passed how a byte is made, a closure, and public functions ask nothing.
pub(crate) fn turn_blocks(accepted: &Accepted, out: &mut [u8])
    requires { Begun accepted.now.file.now accepted.now.shape out.old × (accepted.now.shape.mode1 ≡ false) }
    ensures { out.new ≡ canonical_file accepted.now.file.now accepted.now.shape.iids accepted.now.shape.sids }
{
    let shape = accepted.shape;
    let width = accepted.out_width;
    let codes = CodeTable::new();
    for from in (0..shape.sids).step_by(TILE) {
        let until = from + TILE.min(shape.sids - from);
        for b in 0..width {
            let first = 4 * b;
            let starts = four_starts(shape, first);
            for m in from..until {
                let group = Across {
                    file: accepted.file,
                    starts: &starts,
                    left: shape.iids - first,
                    item: calls::part_of::<SidIndex>(shape, SidIndex(m)),
                    codes: &codes,
                };
                out[3 + m * width + b] = group.byte();
            }
        }
    }
}
