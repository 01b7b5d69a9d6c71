// The calls that the list has.
use std::fmt;

// In the order of their numbers in the list, which begin at 1.
#[derive(Clone, Copy, Debug, PartialEq, Eq, PartialOrd, Ord)]
pub enum Call {
    OpenAndCheck = 1,
    TryDiv4,
    ByteSpan,
    ToRange,
    ReadI8,
    ReadF64,
    Encode1I8,
    Encode1F64,
    WriteI8,
    WriteF64,
    Canonical,
    ImputeAndZeroMeanSnpsF64,
    ReadStandardisedF64,
    IndexAll,
    IndexOne,
    IndexVec,
    IndexBool,
    IndexRange,
    IndexSlice,
    FileAtaPiece,
    FileAatPiece,
    RootF64,
}

// Each once, by hand: no derive lists the variants of an enum.
pub const CALLS: [Call; 22] = [
    Call::OpenAndCheck,
    Call::TryDiv4,
    Call::ByteSpan,
    Call::ToRange,
    Call::ReadI8,
    Call::ReadF64,
    Call::Encode1I8,
    Call::Encode1F64,
    Call::WriteI8,
    Call::WriteF64,
    Call::Canonical,
    Call::ImputeAndZeroMeanSnpsF64,
    Call::ReadStandardisedF64,
    Call::IndexAll,
    Call::IndexOne,
    Call::IndexVec,
    Call::IndexBool,
    Call::IndexRange,
    Call::IndexSlice,
    Call::FileAtaPiece,
    Call::FileAatPiece,
    Call::RootF64,
];

// A number that no call has.
#[derive(Clone, Copy, Debug, PartialEq, Eq)]
pub struct UnknownCall;

impl TryFrom<u64> for Call {
    type Error = UnknownCall;

    fn try_from(number: u64) -> Result<Call, UnknownCall> {
        CALLS
            .iter()
            .copied()
            .find(|call| *call as u64 == number)
            .ok_or(UnknownCall)
    }
}

impl fmt::Display for Call {
    fn fmt<W: fmt::Write>(&self, f: &mut fmt::Formatter<W>) -> fmt::Result {
        f.pad(match self {
            Call::OpenAndCheck => "open_and_check",
            Call::TryDiv4 => "try_div_4",
            Call::ByteSpan => "byte_span",
            Call::ToRange => "to_range",
            Call::ReadI8 => "read_i8",
            Call::ReadF64 => "read_f64",
            Call::Encode1I8 => "encode1_i8",
            Call::Encode1F64 => "encode1_f64",
            Call::WriteI8 => "write_i8",
            Call::WriteF64 => "write_f64",
            Call::Canonical => "canonical",
            Call::ImputeAndZeroMeanSnpsF64 => "impute_and_zero_mean_snps_f64",
            Call::ReadStandardisedF64 => "read_standardised_f64",
            Call::IndexAll => "index_all",
            Call::IndexOne => "index_one",
            Call::IndexVec => "index_vec",
            Call::IndexBool => "index_bool",
            Call::IndexRange => "index_range",
            Call::IndexSlice => "index_slice",
            Call::FileAtaPiece => "file_ata_piece",
            Call::FileAatPiece => "file_aat_piece",
            Call::RootF64 => "root_f64",
        })
    }
}
