// What a line tells, and how many lines tell it.
use crate::call::{CALLS, Call};
use crate::whose::Whose;
use std::alloc::{AllocError, Global};
use std::collections::BTreeMap;
use std::fmt;

#[derive(Clone, Copy, Debug, PartialEq, Eq)]
pub enum Outcome {
    // A line with the original's answer, or document 01's, agrees.
    Original(Call),
    Document(Call),
    Differs,
    ControlAgrees,
    ControlDiffers,
}

// From whose answer a line has, if that can be read, and the call at which it agrees, if it does.
impl From<(Option<Whose>, Option<Call>)> for Outcome {
    fn from(line: (Option<Whose>, Option<Call>)) -> Outcome {
        match line {
            (Some(Whose::Original), Some(call)) => Outcome::Original(call),
            (Some(Whose::Document), Some(call)) => Outcome::Document(call),
            (Some(Whose::Control), Some(_)) => Outcome::ControlAgrees,
            (Some(Whose::Control), None) => Outcome::ControlDiffers,
            _ => Outcome::Differs,
        }
    }
}

// The agreeing lines of a call.
#[derive(Clone, Copy, Debug, Default, PartialEq, Eq)]
struct Agreeing {
    original: u64,
    document: u64,
}

#[derive(Debug, Drop)]
pub struct Counts {
    calls: BTreeMap<Call, Agreeing>,
    lines: u64,
    differing: u64,
    controls: u64,
    controls_differing: u64,
}

// Nothing is counted further.
const COUNT_LIMIT: u64 = 1_000_000;

pub(crate) fn one_more(count: &mut u64) {
    if *count < COUNT_LIMIT {
        *count += 1;
    }
}

impl Counts {
    pub(crate) fn new(alloc: Global) -> Counts {
        Counts {
            calls: BTreeMap::new(alloc),
            lines: 0,
            differing: 0,
            controls: 0,
            controls_differing: 0,
        }
    }

    pub(crate) fn count(&mut self, outcome: Outcome) -> Result<(), AllocError> {
        match outcome {
            Outcome::Original(call) => one_more(&mut self.calls.entry(call)?.or_default().original),
            Outcome::Document(call) => one_more(&mut self.calls.entry(call)?.or_default().document),
            Outcome::Differs => one_more(&mut self.differing),
            Outcome::ControlDiffers => one_more(&mut self.controls_differing),
            Outcome::ControlAgrees => {}
        }
        match outcome {
            Outcome::ControlAgrees | Outcome::ControlDiffers => one_more(&mut self.controls),
            _ => one_more(&mut self.lines),
        }
        Ok(())
    }
}

impl fmt::Display for Counts {
    fn fmt<W: fmt::Write>(&self, f: &mut fmt::Formatter<W>) -> fmt::Result {
        for call in CALLS {
            let Agreeing { original, document } = self
                .calls
                .get(&call)
                .copied()
                .unwrap_or_default();
            writeln!(
                f,
                "{call:<30}{original} of the original's answers, {document} of document 01's"
            )?;
        }
        let Counts {
            lines,
            differing,
            controls,
            controls_differing,
            ..
        } = self;
        write!(
            f,
            "{lines} lines, {differing} differ; {controls} control lines, {controls_differing} differ"
        )
    }
}
