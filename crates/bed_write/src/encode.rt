// Packing one marker's values.
ghost use Rattle.std.specs.Prelude.{◌≡◌, length, None};
ghost use Rattle.blocks.specs.Block.{block_width};
ghost use Rattle.bed_write.specs.Packing.{place_code, packed_codes, first_bad_animal, Encodes};
ghost use Rattle.bed_write.specs.Says.{encode_says};

use crate::group::Strided;
use crate::matrix::Matrix;
use crate::search;
use crate::value_codes::EncodeVal;
use codes::Coding;
use entries::IidIndex;

// What `encode1` refuses: 16, or 7.
#[derive(Clone, Copy, Debug, PartialEq, Eq)]
pub enum EncodeError {
    EncodingLength,
    BadValue(IidIndex),
}

// Packs one marker's values, none of which is bad: the groups of four that are full, then the one that is not.
fn pack<T: EncodeVal>(column: &[T], coding: Coding<T>, out: &mut [u8])
    requires { (length out.old ≡ block_width (length column.now))
        × (first_bad_animal (length column.now) (place_code T.width coding.is_a1_counted coding.missing column.now) ≡ None) }
    ensures { out.new ≡ packed_codes (length column.now) (place_code T.width coding.is_a1_counted coding.missing column.now) }
{
    let full = column.len() / 4;
    for b in 0..full {
        let group = Strided {
            val: column,
            start: 4 * b,
            stride: 1,
            left: 4,
        };
        out[b] = codes::byte_of(group.codes(&coding));
    }
    if full < out.len() {
        let start = 4 * full;
        let last = Strided {
            val: column,
            start,
            stride: 1,
            left: column.len() - start,
        };
        out[full] = codes::byte_of(last.codes(&coding));
    }
}

// Packs one marker's values, four a byte.
pub fn encode1<T: EncodeVal>(
    in_vector: &[T],
    out_vector: &mut [u8],
    is_a1_counted: bool,
    missing: T,
) -> Result<(), EncodeError>
    ensures { Encodes T.width is_a1_counted missing in_vector.now
        (encode_says result) out_vector.old out_vector.new }
{
    let iid_count = in_vector.len();
    if out_vector.len() != blocks::block_width(iid_count) {
        return Err(EncodeError::EncodingLength);
    }
    let coding = Coding {
        is_a1_counted,
        missing,
    };
    let column = Matrix {
        val: in_vector,
        iid_count,
        sid_count: 1,
        animal_order: false,
    };
    if let Some((animal, _)) = search::search(&column, coding) {
        return Err(EncodeError::BadValue(animal));
    }
    pack(in_vector, coding, out_vector);
    Ok(())
}
