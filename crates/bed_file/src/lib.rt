// Header and length.
#![tactic(auto)]

ghost use Rattle.std.specs.Prelude.{◌≡◌};
ghost use Rattle.blocks.specs.Says.{div_number};
ghost use Rattle.bed_file.specs.File.{open_answer, length_answer, accept_answer};
ghost use Rattle.bed_file.specs.Says.{open_says, open_number, file_number, accept_says};

use blocks::DivError;

// What the header is refused by: 1, or 2.
#[derive(Clone, Copy, Debug, PartialEq, Eq)]
pub enum OpenError {
    ReadError,
    IllFormed,
}

// The mode of a file: its byte 2.
#[tactic(auto, using(crate::proofs::FileLaws::opens_short, crate::proofs::FileLaws::opens_first, crate::proofs::FileLaws::opens_second, crate::proofs::FileLaws::opens_good))]
pub fn open_and_check(file: &[u8]) -> Result<u8, OpenError>
    ensures { open_says result ≡ open_answer file.now }
{
    if file.len() < 3 {
        return Err(OpenError::ReadError);
    }
    if file[0] != 0x6C {
        return Err(OpenError::IllFormed);
    }
    if file[1] != 0x1B {
        return Err(OpenError::IllFormed);
    }
    Ok(file[2])
}

// What a file is refused by, for two counts: 18, 1, 2, 3, 4.
#[derive(Clone, Copy, Debug, PartialEq, Eq)]
pub enum FileError {
    CountTooLarge,
    ReadError,
    IllFormed,
    BadMode,
    IndexesTooBigForFiles,
}

impl FileError {
    pub fn number(self) -> u64
        ensures { result ≡ file_number self }
    {
        match self {
            FileError::CountTooLarge => 18,
            FileError::ReadError => 1,
            FileError::IllFormed => 2,
            FileError::BadMode => 3,
            FileError::IndexesTooBigForFiles => 4,
        }
    }
}

impl From<OpenError> for FileError {
    ghost from_gives = { λ header error. open_number header ≡ file_number error };

    fn from(error: OpenError) -> FileError {
        match error {
            OpenError::ReadError => FileError::ReadError,
            OpenError::IllFormed => FileError::IllFormed,
        }
    }
}

impl From<DivError> for FileError {
    ghost from_gives = { λ size error. div_number size ≡ file_number error };

    fn from(error: DivError) -> FileError {
        match error {
            DivError::CountTooLarge => FileError::CountTooLarge,
            DivError::IndexesTooBigForFiles => FileError::IndexesTooBigForFiles,
        }
    }
}

// 18, then 4, then 2 for the length.
#[tactic(auto, using(crate::proofs::FileLaws::length_refused, crate::proofs::FileLaws::length_right, crate::proofs::FileLaws::length_wrong))]
pub fn check_length(file_len: usize, items: usize, blocks: usize) -> Result<(), FileError>
    ensures { accept_says result ≡ length_answer file_len items blocks }
{
    let length = blocks::try_file_length(items, blocks)?;
    if file_len != length {
        return Err(FileError::IllFormed);
    }
    Ok(())
}

// Whether a file is accepted for two counts.
#[tactic(auto, using(crate::proofs::FileLaws::accept_too_large, crate::proofs::FileLaws::accept_not_open, crate::proofs::FileLaws::accept_bad_mode, crate::proofs::FileLaws::accept_mode_1, crate::proofs::FileLaws::accept_mode_0))]
pub fn accept(file: &[u8], iid_count: usize, sid_count: usize) -> Result<(), FileError>
    ensures { accept_says result ≡ accept_answer file.now iid_count sid_count }
{
    if !answer::counts_fit(iid_count, sid_count) {
        return Err(FileError::CountTooLarge);
    }
    match open_and_check(file)? {
        1 => check_length(file.len(), iid_count, sid_count),
        0 => check_length(file.len(), sid_count, iid_count),
        _ => Err(FileError::BadMode),
    }
}
