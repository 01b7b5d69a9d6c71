// The code of every i8, by a table.
ghost use Rattle.std.specs.Prelude.{◌≡◌, ◌<◌};
ghost use Rattle.codes.specs.Value.{i8, code_of};
ghost use Rattle.bed_write.specs.Groups.{or_four, CodesGood};
ghost use Rattle.std.specs.Int.{cast_unsigned, w8};
ghost use Rattle.bed_write.specs.Private.{CodesOfBytes};

use super::{Coder, code_of_two, code_of_zero};
use codes::Coding;

// The code of each i8, or 4, made once for all values of a call.
#[derive(Drop)]
pub struct ByteTable {
    table: [u8; 256],
    coding: Coding<i8>,
    ghost is_table: { CodesOfBytes coding table },
}

// The place of an i8 in a table of 256: its byte, by two's complement.
fn index_of(value: i8) -> usize
    ensures { (result ≡ cast_unsigned w8 value) × (result < 256) }
{
    usize::from(value.cast_unsigned())
}

impl ByteTable {
    // 0, 1 and 2 go before missing.
    pub(crate) fn new(coding: Coding<i8>) -> ByteTable
        ensures { result.coding ≡ coding }
    {
        let mut table = [4u8; 256];
        table[index_of(coding.missing)] = 1;
        table[2] = code_of_two(coding.is_a1_counted);
        table[1] = 2;
        table[0] = code_of_zero(coding.is_a1_counted);
        ByteTable { table, coding }
    }
}

impl Coder<i8> for ByteTable {
    ghost coding = { λ bytes. bytes.coding };

    // The code of a bad value too: 4.
    fn code(&self, value: i8) -> u8
        ensures good { CodesGood i8 self.now.coding.is_a1_counted self.now.coding.missing value result }
        ensures of_bad { result ≡ or_four (code_of i8 self.now.coding.is_a1_counted self.now.coding.missing value) }
    {
        self.table[index_of(value)]
    }
}
