// Packing a block.
ghost use Rattle.std.specs.Prelude.{◌≡◌};
ghost use Rattle.bed_write.specs.Says.{encode_refusal};
ghost use Rattle.block.specs.Blocks.{Packs};
ghost use Rattle.block.specs.Says.{pack_says, pack_refusal};

use crate::MarkerBlockMut;
use bed_write::{EncodeError, EncodeVal};
use entries::IidIndex;

// What a block's `encode1` refuses: 18, 16, 15, or 7.
#[derive(Clone, Copy, Debug, PartialEq, Eq)]
pub enum PackError {
    CountTooLarge,
    IndexMismatch,
    EncodingLength,
    BadValue(IidIndex),
}

impl From<EncodeError> for PackError {
    ghost from_gives = { λ a b. pack_refusal b ≡ encode_refusal a };

    fn from(error: EncodeError) -> PackError {
        match error {
            EncodeError::EncodingLength => PackError::EncodingLength,
            EncodeError::BadValue(animal) => PackError::BadValue(animal),
        }
    }
}

impl<'a> MarkerBlockMut<'a> {
    // Packs a column into the block's bytes.
    #[tactic(auto, using(crate::proofs::PackLaws::pack_too_large, crate::proofs::PackLaws::pack_length, crate::proofs::PackLaws::pack_mismatch, crate::proofs::PackLaws::same_answer, answer::proofs::AnswerLaws::old_if_not), unfolding(crate::specs::Blocks::pack_buffer, bed_write::specs::Packing::encode_buffer))]
    pub fn encode1<T: EncodeVal>(
        self,
        in_vector: &[T],
        is_a1_counted: bool,
        missing: T,
    ) -> Result<(), PackError>
        ensures { Packs T.width is_a1_counted missing in_vector.now self.entry.iid_count
            (pack_says result) self.entry.bytes.now self.exit.0.now }
    {
        if self.iid_count > answer::COUNT_LIMIT {
            return Err(PackError::CountTooLarge);
        }
        if self.bytes.len() != blocks::block_width(self.iid_count) {
            return Err(PackError::EncodingLength);
        }
        if in_vector.len() != self.iid_count {
            return Err(PackError::IndexMismatch);
        }
        bed_write::encode1(in_vector, self.bytes, is_a1_counted, missing)?;
        Ok(())
    }
}
