// What a text tells by itself: whether it is a comment, and the number of a word.
ghost use Rattle.std.specs.Prelude.{◌≡◌};
ghost use Rattle.stored_list.specs.Beginnings.{reads_as_comment};
ghost use Rattle.stored_list.specs.Lines.{is_comment, is_digit, word_of};

use crate::beginning::Beginning;

// The most words of a section.
pub const WORD_LIMIT: usize = 64;

// That a text breaks the form of a line.
#[derive(Clone, Copy, Debug, PartialEq, Eq)]
pub struct BadForm;

// Whether a line is a comment: it begins with `#`.
pub fn is_comment(text: &str) -> bool
    ensures { result ≡ is_comment text.now }
{
    text.starts_with('#')
}

// Whether replay takes a line for a comment: `#` stands in it before any digit and any `|`.
pub fn reads_as_comment(text: &str) -> bool
    ensures { result ≡ reads_as_comment text.now }
{
    Beginning::of(text) == Beginning::Comment
}

pub(crate) fn is_digit(byte: u8) -> bool
    ensures { result ≡ is_digit byte }
{
    matches!(byte, b'0'..=b'9' | b'a'..=b'f')
}

// The number that a word writes.
pub fn word(text: &str) -> Option<u64>
    ensures { result ≡ word_of text.now }
{
    if text.bytes().all(is_digit) {
        u64::from_str_radix(text, 16).ok()
    } else {
        None
    }
}

#[cfg(test)]
mod tests {
    use super::*;

    // Whether a line begins with `#`, and whether it has `#` before any digit and any `|`.
    #[test]
    fn comments(rt: HostRuntime) {
        for (text, begins, before) in [
            ("", false, false),
            ("#", true, true),
            ("# 1|2", true, true),
            (" # 1|2", false, true),
            ("x#", false, true),
            ("1#", false, false),
            ("|#", false, false),
        ] {
            assert_eq!(rt; is_comment(text), begins, "{text}");
            assert_eq!(rt; reads_as_comment(text), before, "{text}");
        }
    }
}
