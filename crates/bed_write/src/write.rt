// Writing a whole file.
ghost use Rattle.std.specs.Prelude.{◌≡◌, [], ◌*◌, ◌<◌, None, length};
ghost use Rattle.answer.specs.Answer.{done, refused};
ghost use Rattle.blocks.specs.Block.{block_width, file_length};
ghost use Rattle.blocks.specs.Says.{div_number};
ghost use Rattle.answer.specs.Lists.{tabulate};
ghost use Rattle.codes.specs.Code.{packed_byte};
ghost use Rattle.bed_write.specs.Writing.{check_buffers, bed_file, Writes};
ghost use Rattle.bed_write.specs.Says.{write_says, write_refusal};
ghost use Rattle.bed_write.specs.Private.{Finds, matrix_code};

use crate::group::Strided;
use crate::matrix::Matrix;
use crate::search;
use crate::value_codes::{Coder, WriteVal};
use blocks::DivError;
use codes::{BedVal, Coding};
use entries::{IidIndex, SidIndex};

// The first bytes of a file of mode 1.
pub const HEADER: [u8; 3] = [0x6C, 0x1B, 1];

// What `write_val` refuses: 18, 4, 15, 16, or 7.
#[derive(Clone, Copy, Debug, PartialEq, Eq)]
pub enum WriteError {
    CountTooLarge,
    IndexesTooBigForFiles,
    IndexMismatch,
    EncodingLength,
    BadValue(IidIndex, SidIndex),
}

impl From<DivError> for WriteError {
    ghost from_gives = { λ a b. write_refusal b ≡ refused (div_number a) [] };

    fn from(error: DivError) -> WriteError {
        match error {
            DivError::CountTooLarge => WriteError::CountTooLarge,
            DivError::IndexesTooBigForFiles => WriteError::IndexesTooBigForFiles,
        }
    }
}

// 18, 4, 15, 16, of counts and lengths.
fn check_write(
    iid_count: usize,
    sid_count: usize,
    val_len: usize,
    out_len: usize,
) -> Result<(), WriteError>
    ensures { write_says result ≡ check_buffers iid_count sid_count val_len out_len (done []) }
{
    let length = blocks::try_file_length(iid_count, sid_count)?;
    if !blocks::product_is(iid_count, sid_count, val_len) {
        return Err(WriteError::IndexMismatch);
    }
    if out_len == length {
        Ok(())
    } else {
        Err(WriteError::EncodingLength)
    }
}

// A matrix without bad values, and what codes them.
#[derive(Drop)]
struct Writer<'a, T: BedVal, C: Coder<T>> {
    matrix: Matrix<'a, T>,
    coder: C,
    ghost is_good: { Finds T.width (C.coding coder) matrix.animal_order matrix.iid_count matrix.sid_count matrix.val.now None },
}

impl<'a, T: BedVal, C: Coder<T>> Writer<'a, T, C> {
    // Byte b of the packed block of marker m.
    fn byte_at(&self, m: usize, b: usize) -> u8
        requires { (m < self.now.matrix.sid_count) × (4 * b < self.now.matrix.iid_count) }
        ensures { result ≡ packed_byte (tabulate self.now.matrix.iid_count (λ a. matrix_code T.width (C.coding self.now.coder)
            self.now.matrix.animal_order self.now.matrix.iid_count self.now.matrix.sid_count self.now.matrix.val.now a m)) b }
    {
        let first = 4 * b;
        let group = Strided {
            val: self.matrix.val,
            start: self.matrix.place(IidIndex(first), SidIndex(m)),
            stride: self.matrix.layout().animal_stride,
            left: self.matrix.iid_count - first,
        };
        codes::byte_of(group.codes(&self.coder))
    }

    // The file.
    fn write(&self, out: &mut [u8])
        requires { length out.old ≡ file_length self.now.matrix.iid_count self.now.matrix.sid_count }
        ensures { out.new ≡ bed_file self.now.matrix.iid_count self.now.matrix.sid_count (matrix_code T.width (C.coding self.now.coder)
            self.now.matrix.animal_order self.now.matrix.iid_count self.now.matrix.sid_count self.now.matrix.val.now) }
    {
        out[..3].copy_from_slice(&HEADER);
        let width = blocks::block_width(self.matrix.iid_count);
        if width == 0 {
            return;
        }
        let tile = self.matrix.layout().tile;
        for from in (0..self.matrix.sid_count).step_by(tile) {
            let until = from + tile.min(self.matrix.sid_count - from);
            for b in 0..width {
                for m in from..until {
                    out[3 + m * width + b] = self.byte_at(m, b);
                }
            }
        }
    }
}

// Writes the values of a matrix as a file of mode 1.
pub fn write_val<T: WriteVal>(
    val: &[T],
    iid_count: usize,
    sid_count: usize,
    animal_order: bool,
    is_a1_counted: bool,
    missing: T,
    out: &mut [u8],
) -> Result<(), WriteError>
    ensures { Writes T.width is_a1_counted missing animal_order iid_count sid_count val.now
        (write_says result) out.old out.new }
{
    check_write(iid_count, sid_count, val.len(), out.len())?;
    let coding = Coding {
        is_a1_counted,
        missing,
    };
    let matrix = Matrix {
        val,
        iid_count,
        sid_count,
        animal_order,
    };
    if let Some((animal, marker)) = search::search(&matrix, coding) {
        return Err(WriteError::BadValue(animal, marker));
    }
    let writer = Writer {
        matrix,
        coder: T::across(coding),
    };
    writer.write(out);
    Ok(())
}
