// How a line begins: whether it is a comment, and the first word, which a line that breaks the form may have too.
ghost use Rattle.std.specs.Prelude.{◌≡◌, true};
ghost use Rattle.std.specs.Char.{digit_value};
ghost use Rattle.stored_list.specs.Lines.{is_digit};
ghost use Rattle.stored_list.specs.Beginnings.{begun_after, beginning_of, first_word, is_settled};

use crate::text::is_digit;

// What of a line was met so far.
#[derive(Clone, Copy, Debug, PartialEq, Eq)]
pub enum Beginning {
    // Neither a digit, nor `|`, nor `#`.
    Nothing,
    // `#`, before any digit and any `|`.
    Comment,
    // `|`, before any digit: the first section has no word.
    NoWord,
    // The first word, as far as it goes.
    Word(u64),
    // The first word, and the space or `|` after it.
    WordAndMore(u64),
}

// The low four bits of `0` to `9` are its value, those of `a` to `f` 9 less, and only letters have a bit 64.
pub(crate) fn digit(byte: u8) -> u64
    requires { is_digit byte ≡ true }
    ensures { result ≡ digit_value byte }
{
    u64::from(byte % 16 + 9 * (byte / 64))
}

impl Beginning {
    // The line with one byte more. A word passes over what is no digit, and a digit that would take its number past 64 bits.
    fn after(self, byte: u8) -> Beginning
        ensures { result ≡ begun_after self byte }
    {
        match self {
            Beginning::Nothing => match byte {
                b'#' => Beginning::Comment,
                b'|' => Beginning::NoWord,
                _ if is_digit(byte) => Beginning::Word(digit(byte)),
                _ => self,
            },
            Beginning::Word(n) => match byte {
                b' ' | b'|' => Beginning::WordAndMore(n),
                _ if is_digit(byte) && n < 1 << 60 => Beginning::Word(16 * n + digit(byte)),
                _ => self,
            },
            _ => self,
        }
    }

    // Whether nothing that comes after is looked at.
    fn is_settled(self) -> bool
        ensures { result ≡ is_settled self }
    {
        !matches!(self, Beginning::Nothing | Beginning::Word(_))
    }

    pub fn of(text: &str) -> Beginning
        ensures { result ≡ beginning_of text.now }
    {
        let mut beginning = Beginning::Nothing;
        for &byte in text.as_bytes() {
            beginning = beginning.after(byte);
            if beginning.is_settled() {
                break;
            }
        }
        beginning
    }

    // The number of the first word, if there is one.
    pub fn first_word(self) -> Option<u64>
        ensures { result ≡ first_word self }
    {
        match self {
            Beginning::Word(n) | Beginning::WordAndMore(n) => Some(n),
            _ => None,
        }
    }
}
