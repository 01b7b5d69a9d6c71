// The codes of four values that share a byte.
ghost use Rattle.std.specs.Prelude.{◌<◌, length};
ghost use Rattle.bed_write.specs.Private.{FourInside, GoodPlace, GoodFour};

use crate::value_codes::Coder;
use codes::{BedVal, Group, PAD};

// A group of values that stand `stride` apart from `start` on, of which `left` are there.
#[derive(Drop)]
pub(crate) struct Strided<'a, T: BedVal> {
    pub val: &'a [T],
    pub start: usize,
    pub stride: usize,
    pub left: usize,
    ghost inside: { FourInside (length val.now) start stride left },
}

impl<'a, T: BedVal> Strided<'a, T> {
    // The code of place k, if no value is bad.
    fn held<C: Coder<T>>(&self, k: usize, coder: &C) -> u8
        requires { k < 4 }
        ensures { GoodPlace T.width (C.coding coder.now) self.now.val.now self.now.start self.now.stride self.now.left k result }
    {
        if k < self.left {
            let at = self.start + k * self.stride;
            coder.code(self.val[at])
        } else {
            PAD
        }
    }

    // The codes of the whole group, if no value is bad.
    pub(crate) fn codes<C: Coder<T>>(&self, coder: &C) -> Group
        ensures { GoodFour T.width (C.coding coder.now) self.now.val.now self.now.start self.now.stride self.now.left
            result.c0 result.c1 result.c2 result.c3 }
    {
        Group {
            c0: self.held(0, coder),
            c1: self.held(1, coder),
            c2: self.held(2, coder),
            c3: self.held(3, coder),
        }
    }
}
