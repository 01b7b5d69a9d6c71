// The value of every code.
ghost use Rattle.std.specs.Prelude.{◌≡◌, map, ◌<◌, length};
ghost use Rattle.codes.specs.Code.{code_table};
ghost use Rattle.codes.specs.Value.{value_of};
ghost use Rattle.bed_read.specs.Private.{value_in, ByCode, place_value};

use codes::{BedVal, CodeTable, Coding};
use std::alloc::AllocError;

// Fills a table with the value, by a coding, of the code of every byte and place: place p of byte b at 4 × b + p.
// Filled where the caller has it: handed out as a result, it took its room on the stack twice.
pub(crate) fn fill_table<T: BedVal>(coding: Coding<T>, table: &mut [T; 1024])
    ensures { table.new ≡ map (value_of T.width coding.is_a1_counted coding.missing) code_table }
{
    let codes = CodeTable::new();
    let of_code = coding.set_up_two_bits_to_value();
    for byte in 0..256 {
        for place in 0..4 {
            let code = codes.code_of_item(byte as u8, place);
            table[4 * byte + place] = of_code[usize::from(code)];
        }
    }
}

// A table that has one value for each code. Passed by value, so that the table's address costs no load for each value.
#[derive(Copy)]
pub(crate) struct Values<'a, T: BedVal> {
    pub table: &'a [T; 1024],
    ghost by_code: { ByCode table.now T.width.zero },
}

// By hand: at a type parameter it is refused that `Clone` be derived for a struct with a ghost field.
impl<'a, T: BedVal> Clone for Values<'a, T> {
    fn clone(&self) -> Result<Self, AllocError> {
        Ok(Values { table: self.table })
    }
}

impl<'a, T: BedVal> Values<'a, T> {
    // The value at a place of a byte of the file.
    #[tactic(auto, using(crate::proofs::TableLaws::by_code_long, crate::proofs::TableLaws::value_there), unfolding(crate::specs::Private::place_value))]
    pub(crate) fn call_value(self, file: &[u8], byte: usize, place: usize) -> T
        requires { (byte < length file.now) × (place < 4) }
        ensures { result ≡ place_value (value_in self.entry.table.now T.width.zero) file.now byte place }
    {
        self.table[usize::from(file[byte]) * 4 + place]
    }
}
