// What a frame's answer, a `=` and a first `+` leave of the term report, without the call that answers.
#![tactic(auto)]

ghost use Rattle.std.specs.Prelude.{◌≡◌, true, false};
ghost use Rattle.state.specs.State.{reset, cold_start};
ghost use Rattle.tally.specs.Carried as Carried;
ghost use Rattle.term_steps.specs.Term as Term;
ghost use Rattle.term_steps.specs.Steps as Steps;

use calls::Answer;
use tally::Tally;
use term_steps::Place;

// A frame's answer, counted: its subframes where it is accepted.
pub fn answered(a: Answer, tally: Tally) -> Place
    ensures { result ≡ Steps.place false a.state (Carried.with_outcome tally (Term.answered a)) }
{
    let next = a.state;
    let number = a.number;
    let t = counting::numbered(tally, number);
    if number != 0 {
        return Place {
            first: false,
            state: next,
            tally: t,
        };
    }
    let s = a.subframes;
    let c = a.clipped;
    Place {
        first: false,
        state: next,
        tally: counting::with_frame(t, s, c),
    }
}

// A line `=`: what follows is a recording's first line, and the decoder starts anew.
pub fn ended(words: &[i16], bytes: &[u8], place: Place) -> Place
    ensures { result ≡ Steps.place true (cold_start words.now bytes.now).state (Carried.uncounted place.tally) }
{
    let tally = place.tally;
    let start = state::cold_start(words, bytes);
    let next = start.state;
    Place {
        first: true,
        state: next,
        tally: counting::uncounted(tally),
    }
}

// A first `+`: the recording's call was heard from its start.
pub fn opened(words: &[i16], bytes: &[u8], place: Place) -> Place
    ensures { result ≡ Steps.place false (reset words.now bytes.now).state (Carried.uncounted place.tally) }
{
    let tally = place.tally;
    let whole = state::reset(words, bytes);
    let next = whole.state;
    Place {
        first: false,
        state: next,
        tally: counting::uncounted(tally),
    }
}
