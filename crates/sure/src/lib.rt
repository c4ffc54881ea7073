// When excitation is sure again: a number from subframe to subframe, 2 while the excitation is the sender's.
#![tactic(auto)]

ghost use Rattle.std.specs.Prelude.{◌≡◌};
ghost use Rattle.sure.specs.Sure as Spec;

// What a frame leaves of the number, and for each subframe whether it holds there, 0 or 1.
// Numbers, and no bools: the theorems on excitation that is sure again (after_same of AgainFrame) and the reports are stated with 1.
#[derive(Clone, Copy)]
pub struct Sure {
    pub left: u8,
    pub subframes: [u8; 4],
}

// The number after a subframe with this pitch gain.
fn surer(w: u8, gain: i16) -> u8
    ensures { result ≡ Spec.surer w gain }
{
    if w >= 2 {
        2
    } else if gain == 0 {
        w + 1
    } else {
        0
    }
}

// Whether it holds.
fn holds(w: u8) -> u8
    ensures { result ≡ Spec.holds w }
{
    u8::from(w >= 2)
}

// The number through four subframes.
fn through(w: u8, gains: [i16; 4]) -> Sure
    ensures { result ≡ Spec.through w gains }
{
    let a = surer(w, gains[0]);
    let b = surer(a, gains[1]);
    let c = surer(b, gains[2]);
    let d = surer(c, gains[3]);
    Sure {
        left: d,
        subframes: [holds(a), holds(b), holds(c), holds(d)],
    }
}

// Those of a frame that came with this mark: with one below 2 it holds nowhere.
pub fn after(mark: u8, w: u8, gains: [i16; 4]) -> Sure
    ensures { result ≡ Spec.after mark w gains }
{
    if mark < 2 {
        Sure {
            left: 0,
            subframes: [0; 4],
        }
    } else {
        through(w, gains)
    }
}
