// The decoder's calls on frames: decode, and up to 64 frames in one call. Reset, cold start and missed frame are those of `state`.
#![tactic(auto)]

ghost use Rattle.std.specs.Prelude.{◌≡◌, true, ◌*◌, length};
ghost use Rattle.tables.specs.Sound.{Sound};
ghost use Rattle.spectral.specs.Kept.{Words16};
ghost use Rattle.state.specs.State.{obeys};
ghost use Rattle.calls.specs.Celp as Celp;
ghost use Rattle.calls.specs.Run.{run};
ghost use Rattle.calls.specs.Frames as Frames;

use answers::{accepted, carried, refused};
use calls::Answer;
use refusal::told;
use refusals::{checked, frame_sizes, frames_sizes, spoilt};
use state::{Returned, State};
use tables::Fault;

// A frame of a set and a state that were checked: what it is answered with. The samples are written where it is accepted.
fn answered(
    words: &[i16],
    bytes: &[u8],
    state: State,
    payload: &[u8],
    samples: &mut [i16],
) -> Answer
    requires fact_1 { Sound words.now bytes.now }
    requires fact_2 { obeys state ≡ true }
    requires fact_3 { length payload.now ≡ 20 }
    requires fact_4 { length samples.old ≡ 320 }
    ensures answer { result ≡ Celp.decode words.now bytes.now state payload.now 320 }
    ensures samples { samples.new ≡ Celp.samples words.now bytes.now state payload.now samples.old }
{
    let f = frame_params::fields(frame_params::unpack(payload));
    match spoilt(words, payload, f) {
        Err(why) => refused(why.number(), Fault { rule: 0, place: 0 }, state),
        Ok(()) => {
            let residuals = state.residuals;
            let d = frame::decode(words, bytes, carried(state), residuals, f, samples);
            accepted(state.mark, state.sure, d)
        }
    }
}

// A frame: what it is answered with. The samples are written where it is accepted.
pub fn decode(
    words: &[i16],
    bytes: &[u8],
    state: State,
    payload: &[u8],
    samples: &mut [i16],
) -> Answer
    ensures answer { result ≡ Celp.decode words.now bytes.now state payload.now (length samples.old) }
    ensures samples { samples.new ≡ Celp.samples words.now bytes.now state payload.now samples.old }
{
    let sizes = told(frame_sizes(payload.len(), samples.len()));
    let why = checked(words, bytes, state, sizes);
    if why != 0 {
        return refused(why, state::fault(why, words, bytes), state);
    }
    answered(words, bytes, state, payload, samples)
}

// That each word is a 16-bit number, which a word tells when it is read. Nothing is left of the loop in the compiled code.
fn are_words(words: &[i16])
    ensures { Words16 words.now }
{
    // By index: it is the place that a word is asked at.
    for i in 0..words.len() {
        tables::word(words, i);
    }
}

// Frames one after the other, each from the state that the one before left; each has its samples and its number.
fn each(
    words: &[i16],
    bytes: &[u8],
    start: State,
    payloads: &[u8],
    samples: &mut [i16],
    numbers: &mut [u8],
) -> State
    requires fact_1 { Words16 words.now }
    requires fact_2 { Sound words.now bytes.now }
    requires fact_3 { obeys start ≡ true }
    requires fact_4 { length payloads.now ≡ 20 * length numbers.old }
    requires fact_5 { length samples.old ≡ 320 * length numbers.old }
    ensures state { result ≡ run words.now bytes.now start (Frames.heards (Frames.frames payloads.now)) }
    ensures samples { samples.new ≡ Frames.samples words.now bytes.now start (Frames.frames payloads.now) samples.old }
    ensures numbers { numbers.new ≡ Frames.numbers words.now bytes.now start (Frames.frames payloads.now) }
{
    let mut state = start;
    // By index: a frame, its samples and its number each stand at a place of their own.
    for k in 0..numbers.len() {
        let at = 20 * k;
        let end = at + 20;
        let from = 320 * k;
        let to = from + 320;
        let a = answered(
            words,
            bytes,
            state,
            &payloads[at..end],
            &mut samples[from..to],
        );
        numbers[k] = a.number;
        let next = a.state;
        state = next;
    }
    state
}

// 1 to 64 frames, laid end to end: what their single calls give, one after the other, the set and the state checked once.
pub fn decode_frames(
    words: &[i16],
    bytes: &[u8],
    state: State,
    payloads: &[u8],
    samples: &mut [i16],
    numbers: &mut [u8],
) -> Returned
    ensures returned { result ≡ Frames.decode_frames words.now bytes.now state payloads.now (length samples.old) (length numbers.old) }
    ensures samples { samples.new ≡ Frames.frames_samples words.now bytes.now state payloads.now samples.old (length numbers.old) }
    ensures numbers { numbers.new ≡ Frames.frames_numbers words.now bytes.now state payloads.now (length samples.old) numbers.old }
{
    let sizes = told(frames_sizes(payloads.len(), samples.len(), numbers.len()));
    let number = checked(words, bytes, state, sizes);
    if number != 0 {
        let Fault { rule, place } = state::fault(number, words, bytes);
        return Returned {
            number,
            rule,
            place,
            state: state::marked(state, 0, 0),
        };
    }
    are_words(words);
    Returned {
        number: 0,
        rule: 0,
        place: 0,
        state: each(words, bytes, state, payloads, samples, numbers),
    }
}
