// Whose answer a line has.

#[derive(Clone, Copy, Debug, PartialEq, Eq)]
pub enum Whose {
    Original,
    // Document 01's or 02's, at a named difference.
    Document,
    // Wrong on purpose.
    Control,
}

#[derive(Clone, Copy, Debug, PartialEq, Eq)]
pub struct UnknownWhose;

impl TryFrom<u64> for Whose {
    type Error = UnknownWhose;

    fn try_from(word: u64) -> Result<Whose, UnknownWhose> {
        match word {
            0 => Ok(Whose::Original),
            1 => Ok(Whose::Document),
            2 => Ok(Whose::Control),
            _ => Err(UnknownWhose),
        }
    }
}
