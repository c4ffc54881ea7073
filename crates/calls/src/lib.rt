// The calls' definitions, and what holds over any sequence of them: specs/ has all of it, and here stands what a decode answers.
#![tactic(auto)]

use half::Clipped;
use observation::Subframe;
use state::State;

// What a decode answers: a refusal number, or 0, with 4 the set rule that is broken and its first offending place, the mark that the frame came with,
// the next state, and what is reported.
#[derive(Clone, Copy)]
pub struct Answer {
    pub number: u8,
    pub rule: u8,
    pub place: usize,
    pub mark: u8,
    pub state: State,
    pub excitation: [i16; 320],
    pub subframes: [Subframe; 4],
    // What was clipped in each of them.
    pub clipped: [Clipped; 4],
    // Whether its excitation is sure to be the sender's, 0 or 1.
    pub sure: [u8; 4],
}
