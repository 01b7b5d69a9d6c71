// A file of mode 1: its blocks are kept, with their pads cleared.
ghost use Rattle.std.specs.Prelude.{◌≡◌, true, ◌<◌};
ghost use Rattle.canonical.specs.Canonical.{canonical_file};
ghost use Rattle.canonical.specs.Private.{kept_byte, Begun};

use crate::accepted::Accepted;
use entries::SidIndex;

// A byte of a block, with its pads cleared: `left` items have not stood in the bytes before it.
#[tactic(auto, unfolding(crate::specs::Private::kept_byte))]
fn kept_byte(byte: u8, left: usize) -> u8
    requires { 0 < left }
    ensures { result ≡ kept_byte left byte }
{
    match left {
        1 => byte % 4,
        2 => byte % 16,
        3 => byte % 64,
        _ => byte,
    }
}

// The canonical file: block by block. Of a block only the last byte may have pads.
pub(crate) fn keep_blocks(accepted: &Accepted, out: &mut [u8])
    requires { Begun accepted.now.file.now accepted.now.shape out.old × (accepted.now.shape.mode1 ≡ true) × (0 < accepted.now.out_width) }
    ensures { out.new ≡ canonical_file accepted.now.file.now accepted.now.shape.iids accepted.now.shape.sids }
{
    let shape = accepted.shape;
    let width = accepted.out_width;
    let last = width - 1;
    for m in 0..shape.sids {
        let start = calls::part_of::<SidIndex>(shape, SidIndex(m)).byte;
        let at = 3 + m * width;
        for b in 0..last {
            let byte = accepted.file[start + b];
            out[at + b] = byte;
        }
        out[at + last] = kept_byte(accepted.file[start + last], shape.iids - 4 * last);
    }
}
