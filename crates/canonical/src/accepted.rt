// An accepted file that is to be written as its canonical file.
ghost use Rattle.std.specs.Prelude.{◌≡◌, ◌+◌, ◌*◌, ◌≤◌, length};
ghost use Rattle.answer.specs.Answer.{count_limit};
ghost use Rattle.blocks.specs.Block.{block_width};
ghost use Rattle.calls.specs.Places.{Shaped};
ghost use Rattle.canonical.specs.Canonical.{canonical_file};

use crate::{kept, turned};
use bed_write::HEADER;
use calls::Shape;

// The file, its shape, and the width of the blocks to be written.
#[derive(Drop)]
pub(crate) struct Accepted<'a> {
    pub file: &'a [u8],
    pub shape: Shape,
    pub out_width: usize,
    ghost shaped: { Shaped file.now shape },
    ghost iids_fit: { shape.iids ≤ count_limit },
    ghost width_is: { out_width ≡ block_width shape.iids },
}

impl<'a> Accepted<'a> {
    // The canonical file: the header, then the blocks.
    pub(crate) fn write(&self, out: &mut [u8])
        requires { length out.old ≡ 3 + self.now.out_width * self.now.shape.sids }
        ensures { out.new ≡ canonical_file self.now.file.now self.now.shape.iids self.now.shape.sids }
    {
        out[..3].copy_from_slice(&HEADER);
        if self.out_width == 0 {
            return;
        }
        if self.shape.mode1 {
            kept::keep_blocks(self, out);
            return;
        }
        turned::turn_blocks(self, out);
    }
}
