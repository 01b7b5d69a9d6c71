// Each call of the C interface, with the numbers and the buffers of its line.
// `alloc` and `line` stay two arguments: of a struct of both every number would be `self.line.number(..)`, and calls without a buffer need no allocator.
use crate::call::Call;
use crate::value::Value;
use bed_answer::BedAnswer;
use std::alloc::{AllocError, Global};
use stored_list::line::{Line, Section};
use stored_list::stored::Stored;

// What the line says that the call answered.
fn answer_of(line: &Line) -> BedAnswer {
    BedAnswer {
        number: line.word(Section::Answer, 0),
        first: i64::from_word(line.word(Section::Answer, 1)),
        second: i64::from_word(line.word(Section::Answer, 2)),
    }
}

// The buffer that has what each word of a section stands for.
fn buffer_at<T: Stored>(
    alloc: Global,
    line: &Line,
    section: Section,
) -> Result<Vec<T>, AllocError> {
    let mut buffer = vec![in alloc; T::from_word(0); line.len(section)]?;
    line.buffer_at(section, buffer.as_mut_slice());
    Ok(buffer)
}

// A call that writes the buffer of one section.
fn writes<T: Stored, F: FnOnce(&mut [T]) -> BedAnswer>(
    alloc: Global,
    line: &Line,
    section: Section,
    call: F,
) -> Result<bool, AllocError>
    requires { F.IsAlwaysCallable call }
{
    let mut buffer = buffer_at(alloc, line, section)?;
    let answer = call(buffer.as_mut_slice());
    Ok(answer == answer_of(line) && line.same_at(Section::Later, buffer.as_slice()))
}

// A call that writes values and their statistics.
fn writes_stats<F: FnOnce(&mut [f64], &mut [f64]) -> BedAnswer>(
    alloc: Global,
    line: &Line,
    call: F,
) -> Result<bool, AllocError>
    requires { F.IsAlwaysCallable call }
{
    let mut val = buffer_at(alloc, line, Section::F64s)?;
    let mut stats = buffer_at(alloc, line, Section::Stats)?;
    let answer = call(val.as_mut_slice(), stats.as_mut_slice());
    Ok(
        answer == answer_of(line)
            && line.same_at(Section::Later, val.as_slice())
            && line.same_at(Section::LaterStats, stats.as_slice()),
    )
}

fn open_and_check(alloc: Global, line: &Line) -> Result<bool, AllocError> {
    let file = buffer_at(alloc, line, Section::Bytes)?;
    let answer = mungkelas::bed_open_and_check(file.as_slice());
    Ok(answer == answer_of(line))
}

fn try_div_4(line: &Line) -> bool {
    let in_iid_count = line.number(0);
    let in_sid_count = line.number(1);
    let answer = mungkelas::bed_try_div_4(in_iid_count, in_sid_count);
    answer == answer_of(line)
}

fn byte_span(alloc: Global, line: &Line) -> Result<bool, AllocError> {
    let count = line.number(0);
    let index = buffer_at(alloc, line, Section::Index)?;
    let answer = mungkelas::bed_byte_span(count, index.as_slice());
    Ok(answer == answer_of(line))
}

fn to_range(line: &Line) -> bool {
    let count = line.number(0);
    let has_start = line.number(1);
    let start = line.number(2);
    let has_end = line.number(3);
    let end = line.number(4);
    let answer = mungkelas::bed_to_range(count, has_start, start, has_end, end);
    answer == answer_of(line)
}

fn read<T: Value>(alloc: Global, line: &Line) -> Result<bool, AllocError> {
    let iid_count = line.number(0);
    let sid_count = line.number(1);
    let is_a1_counted = line.number(2);
    let missing_value: T = line.number(3);
    let animal_order = line.number(4);
    let file = buffer_at(alloc, line, Section::Bytes)?;
    let iid_index = buffer_at(alloc, line, Section::Index)?;
    let sid_index = buffer_at(alloc, line, Section::List)?;
    writes(alloc, line, T::section(), |val| {
        mungkelas::bed_read::<T>(
            file.as_slice(),
            iid_count,
            sid_count,
            is_a1_counted,
            iid_index.as_slice(),
            sid_index.as_slice(),
            missing_value,
            animal_order,
            val,
        )
    })
}

fn read_standardised_f64(alloc: Global, line: &Line) -> Result<bool, AllocError> {
    let iid_count = line.number(0);
    let sid_count = line.number(1);
    let is_a1_counted = line.number(2);
    let animal_order = line.number(3);
    let file = buffer_at(alloc, line, Section::Bytes)?;
    let iid_index = buffer_at(alloc, line, Section::Index)?;
    let sid_index = buffer_at(alloc, line, Section::List)?;
    writes_stats(alloc, line, |val, stats| {
        mungkelas::bed_read_standardised_f64(
            file.as_slice(),
            iid_count,
            sid_count,
            is_a1_counted,
            iid_index.as_slice(),
            sid_index.as_slice(),
            animal_order,
            val,
            stats,
        )
    })
}

fn impute_and_zero_mean_snps_f64(alloc: Global, line: &Line) -> Result<bool, AllocError> {
    let iid_count = line.number(0);
    let sid_count = line.number(1);
    let animal_order = line.number(2);
    let apply_in_place = line.number(3);
    let use_stats = line.number(4);
    writes_stats(alloc, line, |val, stats| {
        mungkelas::bed_impute_and_zero_mean_snps_f64(
            val,
            iid_count,
            sid_count,
            animal_order,
            apply_in_place,
            use_stats,
            stats,
        )
    })
}

fn encode1<T: Value>(alloc: Global, line: &Line) -> Result<bool, AllocError> {
    let is_a1_counted = line.number(0);
    let missing: T = line.number(1);
    let val: Vec<T> = buffer_at(alloc, line, T::section())?;
    writes(alloc, line, Section::Out, |out| {
        mungkelas::bed_encode1(val.as_slice(), out, is_a1_counted, missing)
    })
}

fn write<T: Value>(alloc: Global, line: &Line) -> Result<bool, AllocError> {
    let iid_count = line.number(0);
    let sid_count = line.number(1);
    let animal_order = line.number(2);
    let is_a1_counted = line.number(3);
    let missing: T = line.number(4);
    let val: Vec<T> = buffer_at(alloc, line, T::section())?;
    writes(alloc, line, Section::Out, |out| {
        mungkelas::bed_write::<T>(
            val.as_slice(),
            iid_count,
            sid_count,
            animal_order,
            is_a1_counted,
            missing,
            out,
        )
    })
}

fn canonical(alloc: Global, line: &Line) -> Result<bool, AllocError> {
    let iid_count = line.number(0);
    let sid_count = line.number(1);
    let file = buffer_at(alloc, line, Section::Bytes)?;
    writes(alloc, line, Section::Out, |out| {
        mungkelas::bed_canonical(file.as_slice(), iid_count, sid_count, out)
    })
}

fn index_all(alloc: Global, line: &Line) -> Result<bool, AllocError> {
    let count = line.number(0);
    writes(
        alloc,
        line,
        Section::List,
        |list| mungkelas::bed_index_all(count, list),
    )
}

fn index_one(alloc: Global, line: &Line) -> Result<bool, AllocError> {
    let count = line.number(0);
    let one = line.number(1);
    writes(
        alloc,
        line,
        Section::List,
        |list| mungkelas::bed_index_one(count, one, list),
    )
}

fn index_vec(alloc: Global, line: &Line) -> Result<bool, AllocError> {
    let count = line.number(0);
    let vec = buffer_at(alloc, line, Section::Index)?;
    writes(alloc, line, Section::List, |list| {
        mungkelas::bed_index_vec(count, vec.as_slice(), list)
    })
}

fn index_bool(alloc: Global, line: &Line) -> Result<bool, AllocError> {
    let count = line.number(0);
    let marks = buffer_at(alloc, line, Section::Bytes)?;
    writes(alloc, line, Section::List, |list| {
        mungkelas::bed_index_bool(count, marks.as_slice(), list)
    })
}

fn index_range(alloc: Global, line: &Line) -> Result<bool, AllocError> {
    let count = line.number(0);
    let has_start = line.number(1);
    let start = line.number(2);
    let has_end = line.number(3);
    let end = line.number(4);
    writes(alloc, line, Section::List, |list| {
        mungkelas::bed_index_range(count, has_start, start, has_end, end, list)
    })
}

fn index_slice(alloc: Global, line: &Line) -> Result<bool, AllocError> {
    let count = line.number(0);
    let start = line.number(1);
    let has_end = line.number(2);
    let end = line.number(3);
    let step = line.number(4);
    writes(alloc, line, Section::List, |list| {
        mungkelas::bed_index_slice(count, start, has_end, end, step, list)
    })
}

// A piece of either product, by a closure: a call that another crate hands on is not proved where it is passed by its name. The offset is the line's
// first number, a word as it stands, and the number after the counts is the piece's first column or row.
fn piece<F>(alloc: Global, line: &Line, call: F) -> Result<bool, AllocError>
where
    F: FnOnce(&[u8], u64, usize, usize, usize, usize, usize, &mut [f64]) -> BedAnswer,
    requires { F.IsAlwaysCallable call }
{
    let offset = line.word(Section::Head, 2);
    let row_count = line.number(1);
    let col_count = line.number(2);
    let start = line.number(3);
    let height = line.number(4);
    let width = line.number(5);
    let bytes = buffer_at(alloc, line, Section::Bytes)?;
    let mut piece = buffer_at(alloc, line, Section::F64s)?;
    let answer = call(
        bytes.as_slice(),
        offset,
        row_count,
        col_count,
        start,
        height,
        width,
        piece.as_mut_slice(),
    );
    Ok(answer == answer_of(line) && line.same_at(Section::Later, piece.as_slice()))
}

// The root's bits stand in the place of the first number.
fn root_f64(line: &Line) -> bool {
    let root = mungkelas::bed_root_f64(line.number(0));
    line.word(Section::Answer, 0) == 0
        && root.has_word(line.word(Section::Answer, 1))
        && line.word(Section::Answer, 2) == 0
}

// Whether the library agrees with a line. By a match: a table of functions would hand out function pointers, and the calls differ in what they take.
pub(crate) fn agrees(alloc: Global, call: Call, line: &Line) -> Result<bool, AllocError> {
    match call {
        Call::OpenAndCheck => open_and_check(alloc, line),
        Call::TryDiv4 => Ok(try_div_4(line)),
        Call::ByteSpan => byte_span(alloc, line),
        Call::ToRange => Ok(to_range(line)),
        Call::ReadI8 => read::<i8>(alloc, line),
        Call::ReadF64 => read::<f64>(alloc, line),
        Call::Encode1I8 => encode1::<i8>(alloc, line),
        Call::Encode1F64 => encode1::<f64>(alloc, line),
        Call::WriteI8 => write::<i8>(alloc, line),
        Call::WriteF64 => write::<f64>(alloc, line),
        Call::Canonical => canonical(alloc, line),
        Call::ImputeAndZeroMeanSnpsF64 => impute_and_zero_mean_snps_f64(alloc, line),
        Call::ReadStandardisedF64 => read_standardised_f64(alloc, line),
        Call::IndexAll => index_all(alloc, line),
        Call::IndexOne => index_one(alloc, line),
        Call::IndexVec => index_vec(alloc, line),
        Call::IndexBool => index_bool(alloc, line),
        Call::IndexRange => index_range(alloc, line),
        Call::IndexSlice => index_slice(alloc, line),
        Call::FileAtaPiece => piece(
            alloc,
            line,
            |bytes, offset, row_count, col_count, col_start, height, width, piece| mungkelas::bed_file_ata_piece(
                bytes, offset, row_count, col_count, col_start, height, width, piece,
            ),
        ),
        Call::FileAatPiece => piece(
            alloc,
            line,
            |bytes, offset, row_count, col_count, row_start, height, width, piece| mungkelas::bed_file_aat_piece(
                bytes, offset, row_count, col_count, row_start, height, width, piece,
            ),
        ),
        Call::RootF64 => Ok(root_f64(line)),
    }
}
