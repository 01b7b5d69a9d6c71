// What a call of the C interface answers, as document 01's number with its values: from each result of the core.
#![tactic(auto, unfolding(crate::specs::Interface::bed_answer, crate::specs::Interface::clip_answer))]

ghost use Rattle.std.specs.Prelude.{◌≡◌, pos};
ghost use Rattle.blocks.specs.Says.{div_says};
ghost use Rattle.entries.specs.Says.{span_says};
ghost use Rattle.index.specs.Says.{list_says, range_says};
ghost use Rattle.bed_file.specs.Says.{open_says};
ghost use Rattle.bed_read.specs.Says.{read_says};
ghost use Rattle.bed_write.specs.Says.{encode_says, write_says};
ghost use Rattle.canonical.specs.Says.{canonical_says};
ghost use Rattle.standardise.specs.Says.{standardise_says};
ghost use Rattle.read_standardised.specs.Says.{joined_says};
ghost use Rattle.product.specs.Says.{piece_says};
ghost use Rattle.bed_answer.specs.Interface.{bed_answer, clipped, clip_answer};
ghost use Rattle.bed_answer.specs.Private.{three_of};

use bed_file::OpenError;
use bed_read::ReadError;
use bed_write::{EncodeError, WriteError};
use blocks::DivError;
use canonical::CanonicalError;
use entries::SpanError;
use index::{Bounds, ListError, RangeError};
use product::PieceError;
use read_standardised::JoinedError;
use standardise::StandardiseError;

// What every call answers: document 01's number, or 0, and what goes with it, or 0.
#[repr(C)]
#[derive(Clone, Copy, Debug, PartialEq, Eq)]
pub struct BedAnswer {
    pub number: u64,
    pub first: i64,
    pub second: i64,
}

// A number without values.
fn bare(number: u64) -> BedAnswer
    ensures { result ≡ three_of number (pos 0) (pos 0) }
{
    entry(number, 0)
}

// An entry of a list, as it was given.
fn entry(number: u64, e: i64) -> BedAnswer
    ensures { result ≡ three_of number e (pos 0) }
{
    BedAnswer {
        number,
        first: e,
        second: 0,
    }
}

// A number that is not negative, as a signed one: the clauses' `clipped`, by the library's conversion. `one` and `two` cite it.
#[tactic(auto, using(crate::proofs::AnswerLaws::clip_held))]
fn clip(n: usize) -> i64
    ensures { result ≡ pos (clipped n) }
{
    i64::try_from(n).unwrap_or(i64::MAX)
}

// One number that is not negative.
fn one(number: u64, first: usize) -> BedAnswer
    ensures { result ≡ three_of number (pos (clipped first)) (pos 0) }
{
    entry(number, clip(first))
}

// Two of them.
fn two(number: u64, first: usize, second: usize) -> BedAnswer
    ensures { result ≡ three_of number (pos (clipped first)) (pos (clipped second)) }
{
    BedAnswer {
        number,
        first: clip(first),
        second: clip(second),
    }
}

impl From<Result<u8, OpenError>> for BedAnswer {
    ghost from_gives = { λ said answer. answer ≡ bed_answer (open_says said) };

    fn from(said: Result<u8, OpenError>) -> BedAnswer {
        match said {
            Ok(mode) => one(0, usize::from(mode)),
            Err(OpenError::ReadError) => bare(1),
            Err(OpenError::IllFormed) => bare(2),
        }
    }
}

impl From<Result<usize, DivError>> for BedAnswer {
    ghost from_gives = { λ said answer. answer ≡ bed_answer (clip_answer (div_says said)) };

    fn from(said: Result<usize, DivError>) -> BedAnswer {
        match said {
            Ok(width) => one(0, width),
            Err(DivError::CountTooLarge) => bare(18),
            Err(DivError::IndexesTooBigForFiles) => bare(4),
        }
    }
}

impl From<Result<(usize, usize), SpanError>> for BedAnswer {
    ghost from_gives = { λ said answer. answer ≡ bed_answer (clip_answer (span_says said)) };

    fn from(said: Result<(usize, usize), SpanError>) -> BedAnswer {
        match said {
            Ok((lowest, length)) => two(0, lowest, length),
            Err(SpanError::CountTooLarge) => bare(18),
            Err(SpanError::IidIndexTooBig(e)) => entry(5, e),
        }
    }
}

impl From<Result<Bounds, RangeError>> for BedAnswer {
    ghost from_gives = { λ said answer. answer ≡ bed_answer (clip_answer (range_says said)) };

    fn from(said: Result<Bounds, RangeError>) -> BedAnswer {
        match said {
            Ok(range) => two(0, range.start, range.end),
            Err(RangeError::CountTooLarge) => bare(18),
            Err(RangeError::StartGreaterThanEnd) => bare(12),
        }
    }
}

impl From<Result<usize, ListError>> for BedAnswer {
    ghost from_gives = { λ said answer. answer ≡ bed_answer (clip_answer (list_says said)) };

    fn from(said: Result<usize, ListError>) -> BedAnswer {
        match said {
            Ok(length) => one(0, length),
            Err(ListError::CountTooLarge) => bare(18),
            Err(ListError::BoolArrayVectorWrongLength) => bare(8),
            Err(ListError::StepZero) => bare(9),
            Err(ListError::StartGreaterThanCount) => bare(10),
            Err(ListError::EndGreaterThanCount) => bare(11),
            Err(ListError::StartGreaterThanEnd) => bare(12),
            Err(ListError::ListTooShort) => bare(19),
        }
    }
}

impl From<Result<(), ReadError>> for BedAnswer {
    ghost from_gives = { λ said answer. answer ≡ bed_answer (read_says said) };

    fn from(said: Result<(), ReadError>) -> BedAnswer {
        match said {
            Ok(()) => bare(0),
            Err(ReadError::IndexMismatch) => bare(15),
            Err(ReadError::File(error)) => bare(error.number()),
            Err(ReadError::IidIndexTooBig(e)) => entry(5, e),
            Err(ReadError::SidIndexTooBig(e)) => entry(6, e),
        }
    }
}

impl From<Result<(), EncodeError>> for BedAnswer {
    ghost from_gives = { λ said answer. answer ≡ bed_answer (clip_answer (encode_says said)) };

    fn from(said: Result<(), EncodeError>) -> BedAnswer {
        match said {
            Ok(()) => bare(0),
            Err(EncodeError::EncodingLength) => bare(16),
            Err(EncodeError::BadValue(iid)) => one(7, iid.0),
        }
    }
}

impl From<Result<(), WriteError>> for BedAnswer {
    ghost from_gives = { λ said answer. answer ≡ bed_answer (clip_answer (write_says said)) };

    fn from(said: Result<(), WriteError>) -> BedAnswer {
        match said {
            Ok(()) => bare(0),
            Err(WriteError::CountTooLarge) => bare(18),
            Err(WriteError::IndexesTooBigForFiles) => bare(4),
            Err(WriteError::IndexMismatch) => bare(15),
            Err(WriteError::EncodingLength) => bare(16),
            Err(WriteError::BadValue(iid, sid)) => two(7, iid.0, sid.0),
        }
    }
}

impl From<Result<(), CanonicalError>> for BedAnswer {
    ghost from_gives = { λ said answer. answer ≡ bed_answer (canonical_says said) };

    fn from(said: Result<(), CanonicalError>) -> BedAnswer {
        match said {
            Ok(()) => bare(0),
            Err(CanonicalError::File(error)) => bare(error.number()),
            Err(CanonicalError::EncodingLength) => bare(16),
        }
    }
}

impl From<Result<(), StandardiseError>> for BedAnswer {
    ghost from_gives = { λ said answer. answer ≡ bed_answer (clip_answer (standardise_says said)) };

    fn from(said: Result<(), StandardiseError>) -> BedAnswer {
        match said {
            Ok(()) => bare(0),
            Err(StandardiseError::CountTooLarge) => bare(18),
            Err(StandardiseError::IndexMismatch) => bare(15),
            Err(StandardiseError::StatsMismatch) => bare(17),
            Err(StandardiseError::NoIndividuals(m)) => one(13, m),
            Err(StandardiseError::IllegalSnpMean(m)) => one(14, m),
        }
    }
}

impl From<Result<(), JoinedError>> for BedAnswer {
    ghost from_gives = { λ said answer. answer ≡ bed_answer (clip_answer (joined_says said)) };

    fn from(said: Result<(), JoinedError>) -> BedAnswer {
        match said {
            Ok(()) => bare(0),
            Err(JoinedError::IndexMismatch) => bare(15),
            Err(JoinedError::StatsMismatch) => bare(17),
            Err(JoinedError::File(error)) => bare(error.number()),
            Err(JoinedError::IidIndexTooBig(e)) => entry(5, e),
            Err(JoinedError::SidIndexTooBig(e)) => entry(6, e),
            Err(JoinedError::NoIndividuals(m)) => one(13, m),
        }
    }
}

impl From<Result<(), PieceError>> for BedAnswer {
    ghost from_gives = { λ said answer. answer ≡ bed_answer (piece_says said) };

    fn from(said: Result<(), PieceError>) -> BedAnswer {
        match said {
            Ok(()) => bare(0),
            Err(PieceError::CountTooLarge) => bare(18),
            Err(PieceError::CannotConvertBetaToFromF64) => bare(20),
            Err(PieceError::IndexMismatch) => bare(15),
            Err(PieceError::ReadError) => bare(1),
        }
    }
}
