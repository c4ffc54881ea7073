// The answer to a frame that is refused, and to one that is accepted.
#![tactic(auto)]

ghost use Rattle.std.specs.Prelude.{◌≡◌};
ghost use Rattle.calls.specs.Celp as Celp;

use calls::Answer;
use half::{Clipped, Core};
use observation::{Decoded, Subframe};
use output_filter::OutputFilter;
use state::State;
use sure::Sure;
use tables::Fault;

// What is reported of a subframe that was not decoded.
fn silent() -> Subframe
    ensures { result ≡ Celp.silent }
{
    Subframe {
        figures: [0.0; 12],
        lag: 0,
        frac: 0,
        lpc: [0; 11],
        innovation: [0; 80],
        zero_residuals: 0,
    }
}

// Nothing was clipped in it.
fn unclipped() -> Clipped
    ensures { result ≡ Celp.unclipped }
{
    Clipped {
        prediction: 0,
        mixing: 0,
        synthesis: 0,
        output: 0,
    }
}

// The answer to a frame that is refused. A number and no Refusal: it takes any, and a narrower type would ask more of its callers.
pub fn refused(number: u8, told: Fault, state: State) -> Answer
    ensures { result ≡ Celp.refused number told state }
{
    Answer {
        number,
        rule: told.rule,
        place: told.place,
        mark: 0,
        state: state::marked(state, 0, 0),
        excitation: [0; 320],
        subframes: [silent(); 4],
        clipped: [unclipped(); 4],
        sure: [0; 4],
    }
}

// The parts of the state that a half frame carries on.
pub fn carried(state: State) -> Core
    ensures { result ≡ Celp.carried state }
{
    let State {
        lsp,
        excitation,
        memory,
        sharpen_fixed,
        last_half_lag,
        fir,
        iir,
        gains,
        ..
    } = state;
    Core {
        lsp,
        excitation,
        memory,
        sharpen_fixed,
        last_half_lag,
        filter: OutputFilter { fir, iir },
        gains,
    }
}

// The state that a frame leaves.
fn next(d: Decoded, mark: u8, sure: u8) -> State
    ensures { result ≡ Celp.next d mark sure }
{
    let Decoded {
        core,
        residuals,
        ..
    } = d;
    let Core {
        lsp,
        excitation,
        memory,
        sharpen_fixed,
        last_half_lag,
        filter,
        gains,
    } = core;
    let OutputFilter { fir, iir } = filter;
    State {
        lsp,
        excitation,
        memory,
        sharpen_fixed,
        last_half_lag,
        fir,
        iir,
        residuals,
        gains,
        mark,
        sure,
    }
}

// The mark after a frame that is accepted.
fn raised(mark: u8) -> u8
    ensures { result ≡ Celp.raised mark }
{
    mark.min(1) + 1
}

// The answer to a frame that is accepted; `came` is the mark that it came with, `w` how sure the excitation before it was.
pub fn accepted(came: u8, w: u8, d: Decoded) -> Answer
    ensures { result ≡ Celp.accepted came w d }
{
    let after = raised(came);
    let Decoded {
        excitation,
        subframes,
        clipped,
        pitch_gains,
        ..
    } = d;
    let Sure {
        left,
        subframes: sure,
    } = sure::after(came, w, pitch_gains);
    Answer {
        number: 0,
        rule: 0,
        place: 0,
        mark: came,
        state: next(d, after, left),
        excitation,
        subframes,
        clipped,
        sure,
    }
}
