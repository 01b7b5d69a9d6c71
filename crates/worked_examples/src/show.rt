// What the lines show: dosages, floats, bytes, and what a call answered.
use bed_answer::BedAnswer;
use block::{CodeError, DecodeError, PackError};
use std::fmt;

// Values read as i8 with missing −127.
#[derive(Clone, Copy)]
pub struct Dosages<'a>(pub &'a [i8]);

impl<'a> fmt::Display for Dosages<'a> {
    fn fmt<W: fmt::Write>(&self, f: &mut fmt::Formatter<W>) -> fmt::Result {
        for &dosage in self.0 {
            if dosage == -127 {
                write!(f, " NA")?;
            } else {
                write!(f, " {dosage}")?;
            }
        }
        write!(f, " /")
    }
}

#[derive(Clone, Copy)]
pub struct Floats<'a>(pub &'a [f64]);

impl<'a> fmt::Display for Floats<'a> {
    fn fmt<W: fmt::Write>(&self, f: &mut fmt::Formatter<W>) -> fmt::Result {
        for &v in self.0 {
            if v.is_infinite() {
                write!(f, " {}infinity", if v > 0.0 { "+" } else { "-" })?;
            } else if v == 0.0 {
                write!(f, " {}0", if 1.0 / v > 0.0 { "+" } else { "-" })?;
            } else {
                write!(f, " {v}")?;
            }
        }
        Ok(())
    }
}

#[derive(Clone, Copy)]
pub struct Bytes<'a>(pub &'a [u8]);

impl<'a> fmt::Display for Bytes<'a> {
    fn fmt<W: fmt::Write>(&self, f: &mut fmt::Formatter<W>) -> fmt::Result {
        for &byte in self.0 {
            write!(f, " {byte}")?;
        }
        Ok(())
    }
}

// Done, or a refusal's number and what it carries.
#[derive(Clone, Copy)]
pub struct Said(pub BedAnswer);

impl fmt::Display for Said {
    fn fmt<W: fmt::Write>(&self, f: &mut fmt::Formatter<W>) -> fmt::Result {
        let BedAnswer { number, first, .. } = self.0;
        match number {
            0 => write!(f, " done"),
            5 | 6 => write!(f, " {number} for {first}"),
            13 | 14 => write!(f, " {number} for marker {first}"),
            _ => write!(f, " {number}"),
        }
    }
}

// A code, or a refusal.
#[derive(Clone, Copy)]
pub struct Code(pub Result<u8, CodeError>);

impl fmt::Display for Code {
    fn fmt<W: fmt::Write>(&self, f: &mut fmt::Formatter<W>) -> fmt::Result {
        match self.0 {
            Ok(code) => write!(f, " {code}"),
            Err(CodeError::CountTooLarge) => write!(f, " refused: 18"),
            Err(CodeError::EncodingLength) => write!(f, " refused: 16"),
            Err(CodeError::IidIndexTooBig(iid)) => write!(f, " refused: 5 for {}", iid.0),
        }
    }
}

// What packing a block answers, by document 01's number.
#[derive(Clone, Copy)]
pub struct Packed(pub Result<(), PackError>);

impl fmt::Display for Packed {
    fn fmt<W: fmt::Write>(&self, f: &mut fmt::Formatter<W>) -> fmt::Result {
        f.write_str(match self.0 {
            Ok(()) => "0",
            Err(PackError::CountTooLarge) => "18",
            Err(PackError::IndexMismatch) => "15",
            Err(PackError::EncodingLength) => "16",
            Err(PackError::BadValue(_)) => "7",
        })
    }
}

// The same of decoding one. Two enums with refusals of their own: one type of both would be passed the text of each.
#[derive(Clone, Copy)]
pub struct Decoded(pub Result<(), DecodeError>);

impl fmt::Display for Decoded {
    fn fmt<W: fmt::Write>(&self, f: &mut fmt::Formatter<W>) -> fmt::Result {
        f.write_str(match self.0 {
            Ok(()) => "0",
            Err(DecodeError::CountTooLarge) => "18",
            Err(DecodeError::IndexMismatch) => "15",
            Err(DecodeError::EncodingLength) => "16",
        })
    }
}
