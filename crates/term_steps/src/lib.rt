// What the term report is: specs/ has all of it, and here stands what is carried on between lines.
#![tactic(auto)]

use hex_lines::Line;
use state::State;
use tally::Tally;

// Where the input stands between two lines: whether a recording's first line is to come, the decoder's state, and the tally.
#[derive(Clone, Copy)]
pub struct Place {
    pub first: bool,
    pub state: State,
    pub tally: Tally,
}

// Where it stands in a line.
#[derive(Clone, Copy)]
pub struct Recorder {
    pub first: bool,
    pub state: State,
    pub line: Line,
    pub tally: Tally,
}

// The start: the table file's refusal number, how long its text is, and where the input stands.
#[derive(Clone, Copy)]
pub struct Started {
    pub recorder: Recorder,
    pub number: u8,
    pub n: usize,
}
