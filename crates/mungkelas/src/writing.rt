// Packing one marker's values, and writing a whole file.
ghost use Rattle.mungkelas.specs.Header.{BedEncode1, BedWrite};

use bed_answer::BedAnswer;
use bed_write::{EncodeVal, WriteVal};

#[tactic(auto, using(bed_answer::proofs::AnswerLaws::as_fits, bed_answer::proofs::FitLaws::encode_fits))]
pub fn bed_encode1<T: EncodeVal>(
    in_vector: &[T],
    out_vector: &mut [u8],
    is_a1_counted: bool,
    missing: T,
) -> BedAnswer
    ensures { BedEncode1 T.width in_vector.now is_a1_counted missing result out_vector.old out_vector.new }
{
    BedAnswer::from(bed_write::encode1(in_vector, out_vector, is_a1_counted, missing))
}

#[tactic(auto, using(bed_answer::proofs::AnswerLaws::as_fits, bed_answer::proofs::FitLaws::write_fits))]
pub fn bed_write<T: WriteVal>(
    val: &[T],
    iid_count: usize,
    sid_count: usize,
    animal_order: bool,
    is_a1_counted: bool,
    missing: T,
    out: &mut [u8],
) -> BedAnswer
    ensures { BedWrite T.width val.now iid_count sid_count animal_order is_a1_counted missing
        result out.old out.new }
{
    BedAnswer::from(bed_write::write_val(
        val,
        iid_count,
        sid_count,
        animal_order,
        is_a1_counted,
        missing,
        out,
    ))
}
