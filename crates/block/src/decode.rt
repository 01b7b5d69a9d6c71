// Decoding a block.
ghost use Rattle.std.specs.Prelude.{◌≡◌, length};
ghost use Rattle.blocks.specs.Block.{block_width};
ghost use Rattle.block.specs.Blocks.{code_answer, decode_answer, column_of, Decodes};
ghost use Rattle.block.specs.Says.{code_says, decode_says};

use crate::MarkerBlock;
use codes::{BedVal, CodeTable, Coding};
use entries::IidIndex;

// What `code` refuses: 18, 16, or 5.
#[derive(Clone, Copy, Debug, PartialEq, Eq)]
pub enum CodeError {
    CountTooLarge,
    EncodingLength,
    IidIndexTooBig(IidIndex),
}

// What `decode` refuses: 18, 15, or 16.
#[derive(Clone, Copy, Debug, PartialEq, Eq)]
pub enum DecodeError {
    CountTooLarge,
    IndexMismatch,
    EncodingLength,
}

impl<'a> MarkerBlock<'a> {
    // The code of one animal.
    #[tactic(auto, using(crate::proofs::CheckLaws::byte_below, crate::proofs::CheckLaws::code_too_large, crate::proofs::CheckLaws::code_length, crate::proofs::CheckLaws::code_found, crate::proofs::CheckLaws::code_bad))]
    pub fn code(self, iid: IidIndex) -> Result<u8, CodeError>
        ensures { code_says result ≡ code_answer self.entry.bytes.now self.entry.iid_count iid.0 }
    {
        if self.iid_count > answer::COUNT_LIMIT {
            return Err(CodeError::CountTooLarge);
        }
        if self.bytes.len() != blocks::block_width(self.iid_count) {
            return Err(CodeError::EncodingLength);
        }
        let item = iid.0;
        if item < self.iid_count {
            Ok(codes::code_of_item(self.bytes[item / 4], item))
        } else {
            Err(CodeError::IidIndexTooBig(iid))
        }
    }

    // Every animal's value, into a lent column.
    #[tactic(auto, using(crate::proofs::CheckLaws::decodable_width, crate::proofs::ColumnLaws::column_new, crate::proofs::ColumnLaws::column_kept))]
    pub fn decode<T: BedVal>(
        self,
        is_a1_counted: bool,
        missing_value: T,
        out: &mut [T],
    ) -> Result<(), DecodeError>
        ensures { Decodes T.width is_a1_counted missing_value self.entry.bytes.now self.entry.iid_count
            (decode_says result) out.old out.new }
    {
        self.check_decode(out.len())?;
        let coding = Coding {
            is_a1_counted,
            missing: missing_value,
        };
        self.fill_column(coding, out);
        Ok(())
    }

    #[tactic(auto, using(crate::proofs::CheckLaws::decode_too_large, crate::proofs::CheckLaws::decode_mismatch, crate::proofs::CheckLaws::decode_length, crate::proofs::CheckLaws::decode_done))]
    fn check_decode(self, out_len: usize) -> Result<(), DecodeError>
        ensures { decode_says result ≡ decode_answer (length self.entry.bytes.now) self.entry.iid_count out_len }
    {
        if self.iid_count > answer::COUNT_LIMIT {
            return Err(DecodeError::CountTooLarge);
        }
        if out_len != self.iid_count {
            return Err(DecodeError::IndexMismatch);
        }
        if self.bytes.len() != blocks::block_width(self.iid_count) {
            return Err(DecodeError::EncodingLength);
        }
        Ok(())
    }

    // The value of each animal's code.
    #[tactic(auto, using(crate::proofs::CheckLaws::byte_below, codes::proofs::CodeLaws::code_below, crate::proofs::ColumnLaws::filled_none, crate::proofs::ColumnLaws::filled_more, crate::proofs::ColumnLaws::column_by_values), unfolding(codes::specs::Value::value_of))]
    fn fill_column<T: BedVal>(self, coding: Coding<T>, out: &mut [T])
        requires { length self.bytes.now ≡ block_width (length out.old) }
        ensures { out.new ≡ column_of T.width coding.is_a1_counted coding.missing self.entry.bytes.now (length out.old) }
    {
        let values = coding.set_up_two_bits_to_value();
        let table = CodeTable::new();
        for a in 0..out.len() {
            let code = table.code_of_item(self.bytes[a / 4], a);
            out[a] = values[usize::from(code)];
        }
    }
}
