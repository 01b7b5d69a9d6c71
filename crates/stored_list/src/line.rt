// A line, and what stands in its sections.
ghost use Rattle.std.specs.Prelude.{◌≡◌, Some, map};
ghost use Rattle.stored_list.specs.Lines.{line_of};
ghost use Rattle.stored_list.specs.Readings.{listed};

use crate::stored::Stored;
use crate::text::BadForm;
use crate::words::Words;

// How many sections a line has.
pub const SECTION_COUNT: usize = 11;

// The sections, in the order of a line.
#[derive(Clone, Copy, Debug, PartialEq, Eq)]
pub enum Section {
    // Whose answer it is, the call, and its six numbers.
    Head,
    Bytes,
    Out,
    Index,
    List,
    I8s,
    F64s,
    Stats,
    Answer,
    // The buffers that may be written, as they are after the call.
    Later,
    LaterStats,
}

// A text that has the form of a line, and its words.
#[derive(Clone, Copy, Debug)]
pub struct Line<'a> {
    text: &'a str,
    sections: [Words; SECTION_COUNT],
    ghost has_form: { line_of text.now ≡ Some (map listed sections) },
}

impl<'a> Line<'a> {
    ghost use Rattle.std.specs.Prelude.{◌≡◌, ◌+◌, ◌≤◌, length, option_map};
    ghost use Rattle.std.specs.Result.{result_ok};
    ghost use Rattle.stored_list.specs.Lines.{line_of};
    ghost use Rattle.stored_list.specs.Words.{sections_in, words_at, length_at, word_at};
    ghost use Rattle.stored_list.specs.Buffers.{buffer_at, same_at};

    pub fn parse(text: &'a str) -> Result<Line<'a>, BadForm>
        ensures { option_map sections_in (result_ok result) ≡ line_of text.now }
    {
        let mut sections = [Words::none(); SECTION_COUNT];
        let bytes = text.as_bytes();
        // Where the next section begins: past the end after the last one.
        let mut from = 0;
        for section in sections.iter_mut() {
            if from > bytes.len() {
                return Err(BadForm);
            }
            from += section.read(&bytes[from..])? + 1;
        }
        if from <= bytes.len() {
            return Err(BadForm);
        }
        Ok(Line { text, sections })
    }

    // The words of a section.
    fn section(&self, section: Section) -> &[u64]
        ensures { (result.now ≡ words_at self.now section) × (length result.now ≤ 64) }
    {
        let sections = &self.sections;
        sections[section as usize].as_slice()
    }

    // How many words a section has, at most 64.
    pub fn len(&self, section: Section) -> usize
        ensures { (result ≡ length_at self.now section) × (result ≤ 64) }
    {
        self.section(section).len()
    }

    // A word of a section, or 0 past its end.
    pub fn word(&self, section: Section, i: usize) -> u64
        ensures { result ≡ word_at self.now section i }
    {
        self.section(section).get(i).copied().unwrap_or(0)
    }

    // Number i of the call: the words of the head after whose answer it is and the call.
    pub fn number<T: Stored>(&self, i: u8) -> T
        ensures { result ≡ T.value (word_at self.now Section.Head (i + 2)) }
    {
        T::from_word(self.word(Section::Head, usize::from(i) + 2))
    }

    // Fills a buffer with what each word of a section stands for, and with what 0 stands for past the section's end.
    pub fn buffer_at<T: Stored>(&self, section: Section, buffer: &mut [T])
        ensures { buffer.new ≡ buffer_at T.value self.now section (length buffer.old) }
    {
        for i in 0..buffer.len() {
            buffer[i] = T::from_word(self.word(section, i));
        }
    }

    // Whether a section has a list: its length, and the word of each element.
    pub fn same_at<T: Stored>(&self, section: Section, got: &[T]) -> bool
        ensures { result ≡ same_at T.word T.read self.now section got.now }
    {
        if got.len() != self.len(section) {
            return false;
        }
        let mut pairs = got.iter().zip(self.section(section).iter());
        pairs.all(|(x, bits)| x.has_word(*bits))
    }
}
