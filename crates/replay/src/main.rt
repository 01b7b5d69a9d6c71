// Replays the stored list of answers, data/answers.txt: a line is a call with its lent buffers, the answer, and the buffers afterwards.
// tools/differential says how the list was made, and its form. A line that breaks the form, and a call that is not known, differ. A line whose
// first word is 2 is a control, wrong on purpose: it must differ.
#![tactic(auto)]

mod call;
mod counts;
mod line_calls;
mod value;
mod whose;

use call::Call;
use counts::{Counts, Outcome, one_more};
use std::alloc::{AllocError, Global};
use std::fs::File;
use std::io;
use std::io::Read;
use stored_list::beginning::Beginning;
use stored_list::line::{Line, Section};
use whose::Whose;

// The list is read in this many parts at most, and ends where it is read no further.
const PARTS: usize = 1000;

const PART_LENGTH: usize = 4096;

// The call of a line, if the library agrees there, or nothing: also where the line has not the form (the head of eight words, the answer of three)
// or the call is not known.
fn agreeing(alloc: Global, text: &str) -> Result<Option<Call>, AllocError> {
    let Ok(line) = Line::parse(text) else {
        return Ok(None);
    };
    if line.len(Section::Head) != 8 || line.len(Section::Answer) != 3 {
        return Ok(None);
    }
    let Ok(call) = Call::try_from(line.word(Section::Head, 1)) else {
        return Ok(None);
    };
    let agrees = line_calls::agrees(alloc, call, &line)?;
    Ok(agrees.then_some(call))
}

// A line feed ends a line.
fn is_line_feed(byte: &u8) -> bool {
    *byte == b'\n'
}

// The lines that were counted, and whose answer the last line has of which that is known.
#[derive(Debug, Drop)]
struct Replay {
    line: u64,
    whose: Option<Whose>,
    counts: Counts,
}

impl Replay {
    fn new(alloc: Global) -> Replay {
        Replay {
            line: 0,
            whose: Some(Whose::Original),
            counts: Counts::new(alloc),
        }
    }

    // Counts a line, and says if it is not as it should be. It is whose its first word says; without one, whose the line before is. What cannot be said is left unsaid.
    fn count_line(&mut self, rt: &HostRuntime, text: &str) -> Result<(), AllocError> {
        one_more(&mut self.line);
        let beginning = Beginning::of(text);
        if beginning == Beginning::Comment {
            return Ok(());
        }
        if let Some(word) = beginning.first_word() {
            self.whose = Whose::try_from(word).ok();
        }
        let outcome = Outcome::from((self.whose, agreeing(rt.alloc(), text)?));
        self.counts.count(outcome)?;
        let number = self.line;
        let _ = match outcome {
            Outcome::Differs => println!(rt; "{number}: this line of the list DIFFERS"),
            Outcome::ControlAgrees => println!(rt;
                "{number}: this line of the list, a control, AGREES"
            ),
            _ => Ok(()),
        };
        Ok(())
    }
}

fn main(rt: HostRuntime) -> io::Result<()> {
    let mut file = match File::open(&rt, "answers.txt") {
        Ok(file) => file,
        Err(_) => {
            let _ = println!(rt; "no list");
            return Ok(());
        }
    };
    let mut replay = Replay::new(rt.alloc());
    let mut part = [0u8; PART_LENGTH];
    // The bytes of a line that has not ended: a last line without a line feed is not counted.
    let mut line = Vec::new(rt.alloc());
    for _ in 0..PARTS {
        let n = file.read(&mut part)?;
        for bytes in part[..n].split_inclusive(is_line_feed) {
            line.extend_from_slice(bytes)?;
            if line.pop_if(|byte| *byte == b'\n').is_some() {
                // What is no text stands for itself as a character that no word has.
                let text = String::from_utf8_lossy(rt.alloc(), line.as_slice())?;
                replay.count_line(&rt, &text)?;
                line.clear();
            }
        }
    }
    let counts = replay.counts;
    let _ = println!(rt; "{counts}");
    Ok(())
}
