// The joined call's refusals, from those of the two calls.
ghost use Rattle.std.specs.Prelude.{◌≡◌, Err};
ghost use Rattle.answer.specs.Answer.{GivesNo};
ghost use Rattle.bed_read.specs.Says.{read_says};
ghost use Rattle.standardise.specs.Says.{standardise_says};
ghost use Rattle.read_standardised.specs.Says.{joined_says};

use bed_file::FileError;
use bed_read::ReadError;
use standardise::StandardiseError;

// What the joined call refuses; 5 and 6 carry the entry, 13 the place in the marker list.
#[derive(Clone, Copy, Debug, PartialEq, Eq)]
pub enum JoinedError {
    IndexMismatch,
    StatsMismatch,
    File(FileError),
    IidIndexTooBig(i64),
    SidIndexTooBig(i64),
    NoIndividuals(usize),
}

impl From<ReadError> for JoinedError {
    ghost from_gives = { λ read joined. joined_says (Err joined) ≡ read_says (Err read) };

    fn from(error: ReadError) -> JoinedError {
        match error {
            ReadError::IndexMismatch => JoinedError::IndexMismatch,
            ReadError::File(error) => JoinedError::File(error),
            ReadError::IidIndexTooBig(e) => JoinedError::IidIndexTooBig(e),
            ReadError::SidIndexTooBig(e) => JoinedError::SidIndexTooBig(e),
        }
    }
}

// The standardiser's result as the joined call's, which has no 14: of calls that were read the standardiser gives none. A `From` can require
// nothing: with this equation for each error (tried) it leaves `returns-in-IllegalSnpMean` open, where 13 would have to be 14.
pub(crate) fn of_standardising(said: Result<(), StandardiseError>) -> Result<(), JoinedError>
    requires { GivesNo 14 (standardise_says said) }
    ensures { joined_says result ≡ standardise_says said }
{
    match said {
        Ok(()) => Ok(()),
        Err(StandardiseError::CountTooLarge) => Err(JoinedError::File(FileError::CountTooLarge)),
        Err(StandardiseError::IndexMismatch) => Err(JoinedError::IndexMismatch),
        Err(StandardiseError::StatsMismatch) => Err(JoinedError::StatsMismatch),
        Err(StandardiseError::NoIndividuals(m)) => Err(JoinedError::NoIndividuals(m)),
        // never reached: that is what is required
        Err(StandardiseError::IllegalSnpMean(m)) => Err(JoinedError::NoIndividuals(m)),
    }
}
