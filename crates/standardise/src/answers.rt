// The answer of a marker.
ghost use Rattle.std.specs.Prelude.{◌≡◌};
ghost use Rattle.standardise.specs.Standardised.{marker_answer};
ghost use Rattle.standardise.specs.Says.{standardise_says};

use statistics::{MarkerError, MarkerStats};

// What standardising refuses; 13 and 14 carry the marker's place.
#[derive(Clone, Copy, Debug, PartialEq, Eq)]
pub enum StandardiseError {
    CountTooLarge,
    IndexMismatch,
    StatsMismatch,
    NoIndividuals(usize),
    IllegalSnpMean(usize),
}

// What there is for marker m, as an answer.
pub(crate) fn marker_answer(
    m: usize,
    found: Result<MarkerStats, MarkerError>,
) -> Result<(), StandardiseError>
    ensures { standardise_says result ≡ marker_answer m found }
{
    match found {
        Ok(_) => Ok(()),
        Err(MarkerError::NoIndividuals) => Err(StandardiseError::NoIndividuals(m)),
        Err(MarkerError::IllegalSnpMean) => Err(StandardiseError::IllegalSnpMean(m)),
    }
}
