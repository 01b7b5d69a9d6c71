// The stored list of answers: a line is read from text into its sections, and values are taken from a section and compared with one.
// tools/differential/README.md has the form of a line.
#![tactic(auto)]

pub mod beginning;
pub mod line;
pub mod stored;
pub mod text;
mod words;
