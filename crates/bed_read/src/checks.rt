// The checks of reading.
ghost use Rattle.std.specs.Prelude.{◌≡◌};
ghost use Rattle.bed_read.specs.Reading.{checks_answer, lists_answer};
ghost use Rattle.bed_read.specs.Says.{read_says};
ghost use Rattle.bed_read.specs.declared.checks.ReadError.TheVariants.{File};

use bed_file::FileError;

// What reading refuses, and counting: 15; what a file is refused by; 5, or 6.
#[derive(Clone, Copy, Debug, PartialEq, Eq)]
pub enum ReadError {
    IndexMismatch,
    File(FileError),
    IidIndexTooBig(i64),
    SidIndexTooBig(i64),
}

impl From<FileError> for ReadError {
    ghost from_gives = { λ file error. error ≡ File file };

    fn from(error: FileError) -> ReadError {
        ReadError::File(error)
    }
}

// The lists' checks by themselves: 18, then 5 for the animal list, then 6 for the marker list.
#[tactic(auto, using(crate::proofs::ReadLaws::lists_too_large, crate::proofs::ReadLaws::lists_5, crate::proofs::ReadLaws::lists_6, crate::proofs::ReadLaws::lists_good))]
pub fn check_lists(
    iid_count: usize,
    sid_count: usize,
    iid_index: &[i64],
    sid_index: &[i64],
) -> Result<(), ReadError>
    ensures { read_says result ≡ lists_answer iid_count sid_count iid_index.now sid_index.now }
{
    if !answer::counts_fit(iid_count, sid_count) {
        return Err(ReadError::File(FileError::CountTooLarge));
    }
    if let Some(e) = entries::first_bad(iid_count, iid_index) {
        return Err(ReadError::IidIndexTooBig(e));
    }
    if let Some(e) = entries::first_bad(sid_count, sid_index) {
        return Err(ReadError::SidIndexTooBig(e));
    }
    Ok(())
}

// All checks of reading, and of counting: 18, 15 for a buffer that has not m values for each marker named, the file's own, 5 and 6.
// The counts and the lists stay parameters: they are those of the original and of C, and in a struct each clause would name its fields.
#[tactic(auto, using(crate::proofs::ReadLaws::file_told, crate::proofs::ReadLaws::read_too_large, crate::proofs::ReadLaws::read_mismatch, crate::proofs::ReadLaws::read_not_accepted, crate::proofs::ReadLaws::read_lists))]
pub fn check_read(
    file: &[u8],
    iid_count: usize,
    sid_count: usize,
    iid_index: &[i64],
    sid_index: &[i64],
    m: usize,
    val_len: usize,
) -> Result<(), ReadError>
    ensures { read_says result ≡ checks_answer m file.now iid_count sid_count
        iid_index.now sid_index.now val_len }
{
    if !answer::counts_fit(iid_count, sid_count) {
        return Err(ReadError::File(FileError::CountTooLarge));
    }
    if !blocks::product_is(m, sid_index.len(), val_len) {
        return Err(ReadError::IndexMismatch);
    }
    bed_file::accept(file, iid_count, sid_count)?;
    check_lists(iid_count, sid_count, iid_index, sid_index)
}
