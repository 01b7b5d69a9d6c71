// The words of a section, read byte by byte.
ghost use Rattle.std.specs.Prelude.{◌≡◌, ◌≤◌, ◌<◌, List, [], ℕ, length, Option, Some, None, MatchResult};
ghost use Rattle.stored_list.specs.Lines.{words_of};
ghost use Rattle.stored_list.specs.Readings.{listed, few, onto, before, until_bar};

use crate::beginning::digit;
use crate::text::{BadForm, WORD_LIMIT, is_digit};

#[derive(Clone, Copy, Debug)]
pub(crate) struct Words {
    words: [u64; WORD_LIMIT],
    count: usize,
}

impl Words {
    pub(crate) fn none() -> Words {
        Words {
            words: [0; WORD_LIMIT],
            count: 0,
        }
    }

    pub(crate) fn as_slice(&self) -> &[u64]
        ensures { (result.now ≡ listed self.now) × (length result.now ≤ 64) }
    {
        &self.words[..self.count.min(WORD_LIMIT)]
    }

    // One word more, if there is one and room for it.
    fn push(&mut self, word: Option<u64>) -> Result<(), BadForm>
        ensures { MatchResult result
            (λ _. (left : Option (List ℕ)) → few (onto (listed self.old) (before word left)) ≡ few (onto (listed self.new) left))
            (λ _. (left : Option (List ℕ)) → few (onto (listed self.old) (before word left)) ≡ None) }
    {
        let Some(word) = word else {
            return Err(BadForm);
        };
        if self.count >= WORD_LIMIT {
            return Err(BadForm);
        }
        self.words[self.count] = word;
        self.count += 1;
        Ok(())
    }

    // The end of a section of n bytes, where the word so far is its last.
    fn close(&mut self, n: usize, word: Option<u64>) -> Result<usize, BadForm>
        ensures { MatchResult result
            (λ m. (m ≡ n) × ((0 < n → few (onto (listed self.old) (before word (Some []))) ≡ few (onto (listed self.new) (Some []))) × (n ≡ 0 → self.new ≡ self.old)))
            (λ _. (0 < n) × (few (onto (listed self.old) (before word (Some []))) ≡ None)) }
    {
        if n > 0 {
            self.push(word)?;
        }
        Ok(n)
    }

    // Reads a section, as far as `|` or the end: words with a space between two, or none. A digit of a word is read if its number stays below 2^64.
    // The section's length in bytes.
    pub(crate) fn read(&mut self, bytes: &[u8]) -> Result<usize, BadForm>
        ensures { MatchResult result
            (λ n. (n ≡ length (until_bar bytes.now)) × (words_of (until_bar bytes.now) ≡ Some (listed self.new)))
            (λ _. words_of (until_bar bytes.now) ≡ None) }
    {
        self.count = 0;
        // The word so far, if it has a digit.
        let mut number = 0;
        let mut is_word = false;
        for (i, &byte) in bytes.iter().enumerate() {
            if is_digit(byte) {
                if number >= 1 << 60 {
                    return Err(BadForm);
                }
                number = 16 * number + digit(byte);
                is_word = true;
            } else if byte == b' ' {
                self.push(is_word.then_some(number))?;
                number = 0;
                is_word = false;
            } else if byte == b'|' {
                return self.close(i, is_word.then_some(number));
            } else {
                return Err(BadForm);
            }
        }
        self.close(bytes.len(), is_word.then_some(number))
    }
}
