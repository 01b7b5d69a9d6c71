// The checks of the canonical call.
ghost use Rattle.std.specs.Prelude.{◌≡◌};
ghost use Rattle.blocks.specs.Says.{div_number};
ghost use Rattle.bed_file.specs.Says.{file_number};
ghost use Rattle.canonical.specs.Canonical.{canonical_answer};
ghost use Rattle.canonical.specs.Says.{canonical_number, canonical_says};

use bed_file::FileError;
use blocks::DivError;

// What the canonical call refuses: what the file is refused by, or 16.
#[derive(Clone, Copy, Debug, PartialEq, Eq)]
pub enum CanonicalError {
    File(FileError),
    EncodingLength,
}

impl From<FileError> for CanonicalError {
    ghost from_gives = { λ file error. file_number file ≡ canonical_number error };

    fn from(error: FileError) -> CanonicalError {
        CanonicalError::File(error)
    }
}

impl From<DivError> for CanonicalError {
    ghost from_gives = { λ size error. div_number size ≡ canonical_number error };

    fn from(error: DivError) -> CanonicalError {
        CanonicalError::File(FileError::from(error))
    }
}

// The reading's checks, then those of the length to be written: 4, then 16.
pub(crate) fn check_canonical(
    file: &[u8],
    iid_count: usize,
    sid_count: usize,
    out_len: usize,
) -> Result<(), CanonicalError>
    ensures { canonical_says result ≡ canonical_answer file.now iid_count sid_count out_len }
{
    bed_file::accept(file, iid_count, sid_count)?;
    let length = blocks::try_file_length(iid_count, sid_count)?;
    if out_len != length {
        return Err(CanonicalError::EncodingLength);
    }
    Ok(())
}
