// One marker's block: its bytes together with its animal count.
#![tactic(auto)]

ghost use Rattle.std.specs.Prelude.{◌≡◌};
ghost use Rattle.block.specs.Blocks.{code_answer, Decodes, Packs};
ghost use Rattle.block.specs.Says.{code_says, decode_says, pack_says};

mod decode;
mod pack;

use bed_write::EncodeVal;
use codes::BedVal;
pub use decode::{CodeError, DecodeError};
use entries::IidIndex;
pub use pack::PackError;

// A block to be decoded.
#[derive(Clone, Copy)]
pub struct MarkerBlock<'a> {
    pub bytes: &'a [u8],
    pub iid_count: usize,
}

// A block to be filled.
#[derive(Drop)]
pub struct MarkerBlockMut<'a> {
    pub bytes: &'a mut [u8],
    pub iid_count: usize,
}

impl<'a> MarkerBlock<'a> {
    pub fn new(bytes: &'a [u8], iid_count: usize) -> MarkerBlock<'a>
        ensures { (result.bytes ≡ bytes.entry) × (result.iid_count ≡ iid_count) }
    {
        MarkerBlock { bytes, iid_count }
    }
}

impl<'a> MarkerBlockMut<'a> {
    pub fn new(bytes: &'a mut [u8], iid_count: usize) -> MarkerBlockMut<'a>
        ensures { (result.bytes ≡ bytes.entry) × (result.iid_count ≡ iid_count) }
    {
        MarkerBlockMut { bytes, iid_count }
    }
}

// The same with plain parameters: the block is made here.
pub fn code_in_block(bytes: &[u8], iid_count: usize, iid: IidIndex) -> Result<u8, CodeError>
    ensures { code_says result ≡ code_answer bytes.now iid_count iid.0 }
{
    MarkerBlock::new(bytes, iid_count).code(iid)
}

pub fn decode_block<T: BedVal>(
    bytes: &[u8],
    iid_count: usize,
    is_a1_counted: bool,
    missing_value: T,
    out: &mut [T],
) -> Result<(), DecodeError>
    ensures { Decodes T.width is_a1_counted missing_value bytes.now iid_count (decode_says result) out.old out.new }
{
    MarkerBlock::new(bytes, iid_count).decode(is_a1_counted, missing_value, out)
}

pub fn encode_block<T: EncodeVal>(
    bytes: &mut [u8],
    iid_count: usize,
    in_vector: &[T],
    is_a1_counted: bool,
    missing: T,
) -> Result<(), PackError>
    ensures { Packs T.width is_a1_counted missing in_vector.now iid_count (pack_says result) bytes.old bytes.new }
{
    MarkerBlockMut::new(bytes, iid_count).encode1(in_vector, is_a1_counted, missing)
}
