// The decoder's state, handed in and handed back whole: its rule, where a call starts, and a frame that was missed.
#![tactic(auto)]

ghost use Rattle.std.specs.Prelude.{◌≡◌, length};
ghost use Rattle.refusal.specs.Numbers as Numbers;
ghost use Rattle.sequence.specs.All.{all};
ghost use Rattle.floats.specs.Floats.{within};
ghost use Rattle.tables.specs.Places.{WORDS, BYTES};
ghost use Rattle.tables.specs.Tables.{check};
ghost use Rattle.state.specs.State.{all_zero, marked, obeys, fault, lsp_mean, initial, started, reset, cold_start, missed_frame};

use refusal::Refusal;
use std::array;
use tables::Fault;

// All that a decoder carries from frame to frame: what the halves carry on, the residuals, the gain history, the mark, and how sure its excitation is.
#[derive(Clone, Copy)]
pub struct State {
    pub lsp: [i16; 10],
    pub excitation: [i16; 154],
    pub memory: [i16; 10],
    pub sharpen_fixed: i16,
    pub last_half_lag: i16,
    pub fir: [i16; 6],
    pub iir: [i32; 6],
    pub residuals: [f32; 30],
    pub gains: [f32; 4],
    pub mark: u8,
    pub sure: u8,
}

// What reset, cold start and a missed frame give: a refusal number, or 0, with 4 the rule and the place, and a state.
#[derive(Drop)]
pub struct Returned {
    pub number: u8,
    pub rule: u8,
    pub place: usize,
    pub state: State,
}

// The state that is handed back where the set is refused.
pub fn all_zero() -> State
    ensures { result ≡ all_zero }
{
    State {
        lsp: [0; 10],
        excitation: [0; 154],
        memory: [0; 10],
        sharpen_fixed: 0,
        last_half_lag: 0,
        fir: [0; 6],
        iir: [0; 6],
        residuals: [0.0; 30],
        gains: [0.0; 4],
        mark: 0,
        sure: 0,
    }
}

// The same state with another mark, and sure as it is said.
pub fn marked(state: State, mark: u8, sure: u8) -> State
    ensures { result ≡ marked state mark sure }
{
    State {
        mark,
        sure,
        ..state
    }
}

// Whether each is finite and within 131,072.
fn all_within(floats: &[f32]) -> bool
    ensures { result ≡ all (within 131072) floats.now }
{
    floats.iter().all(|x| floats::within(131072, *x))
}

// The state rule.
#[tactic(auto, unfolding(crate::specs::State::obeys))]
pub fn obeys(state: State) -> bool
    ensures { result ≡ obeys state }
{
    all_within(&state.residuals) && all_within(&state.gains) && state.mark <= 2 && state.sure <= 2
}

// Which set rule is broken and where: the set is looked through again, where it was refused with 4 and nowhere else.
// A number and no Refusal: it takes any, and a narrower type would ask more of its callers.
pub fn fault(number: u8, words: &[i16], bytes: &[u8]) -> Fault
    requires { number ≡ 4 → check words.now bytes.now ≡ 4 }
    ensures { result ≡ fault number words.now bytes.now }
{
    if number == 4 {
        return rules::first_fault(words, bytes);
    }
    Fault { rule: 0, place: 0 }
}

// The ten words of LSP_MEAN.
fn lsp_mean(words: &[i16]) -> [i16; 10]
    requires { length words.now ≡ WORDS }
    ensures { result ≡ lsp_mean words.now }
{
    array::from_fn(|k| tables::word(words, tables::LSP_MEAN + k))
}

// The state that a call starts from.
fn initial(words: &[i16], bytes: &[u8], mark: u8) -> State
    requires fact_1 { length words.now ≡ WORDS }
    requires fact_2 { length bytes.now ≡ BYTES }
    ensures { result ≡ initial words.now bytes.now mark }
{
    let lsp = lsp_mean(words);
    let residuals = spectral::initial(words);
    let gains = gain_state::initial_history(bytes);
    State {
        lsp,
        excitation: [0; 154],
        memory: [0; 10],
        sharpen_fixed: 3277,
        last_half_lag: 60,
        fir: [0; 6],
        iir: [0; 6],
        residuals,
        gains,
        mark,
        sure: mark,
    }
}

// That state, or where the set is refused the all-zero one.
fn started(words: &[i16], bytes: &[u8], mark: u8) -> Returned
    ensures { result ≡ started words.now bytes.now mark }
{
    match rules::check(words, bytes) {
        Ok(()) => Returned {
            number: 0,
            rule: 0,
            place: 0,
            state: initial(words, bytes, mark),
        },
        Err(why) => {
            let number = why.number();
            let told = fault(number, words, bytes);
            Returned {
                number,
                rule: told.rule,
                place: told.place,
                state: all_zero(),
            }
        }
    }
}

// The state that a call starts from, with mark 2 and sure 2, or where the set is refused the all-zero one.
pub fn reset(words: &[i16], bytes: &[u8]) -> Returned
    ensures { result ≡ reset words.now bytes.now }
{
    started(words, bytes, 2)
}

// The same state, with 0 and 0.
pub fn cold_start(words: &[i16], bytes: &[u8]) -> Returned
    ensures { result ≡ cold_start words.now bytes.now }
{
    started(words, bytes, 0)
}

// The state with mark 0 and sure 0, and 5 where it does not obey the state rule.
#[tactic(auto, unfolding(crate::specs::State::missed_frame))]
pub fn missed_frame(state: State) -> Returned
    ensures { result ≡ missed_frame state }
{
    Returned {
        number: if obeys(state) {
            0
        } else {
            Refusal::StateRule.number()
        },
        rule: 0,
        place: 0,
        state: marked(state, 0, 0),
    }
}
