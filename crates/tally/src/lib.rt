// The counts of the term report: how many frames were accepted and refused, and how the subframes of the accepted ones fall on classes, lags, gain indexes and
// code gains, and how many of their samples were clipped. Where a lag is counted, the ends of the code gains, the sums of what was clipped, and the limit.
#![tactic(auto)]

ghost use Rattle.std.specs.Prelude.{◌≡◌};
ghost use Rattle.tally.specs.Figures as Figures;
ghost use Rattle.tally.specs.Carried as Carried;

use half::Clipped;

// Reading stops at so many lines, those that no figure has among them.
const LIMIT: u64 = 4294967295;

// Of the subframes of accepted frames: how many there are, how many of each class from 0, lag from 19 and gain index from 0, and between what their code gains lie.
#[derive(Clone, Copy)]
pub struct Subframes {
    pub n: u64,
    pub classes: [u64; 6],
    pub lags: [u64; 126],
    pub gain_indexes: [u64; 128],
    pub largest: u64,
    pub smallest: u64,
}

// Of the same subframes: at how many samples saturation changed a value, in each of four steps.
#[derive(Clone, Copy)]
pub struct Clippings {
    pub prediction: u64,
    pub mixing: u64,
    pub synthesis: u64,
    pub output: u64,
}

// Of the lines: how many there are, and how many were accepted and refused with each number.
#[derive(Clone, Copy)]
pub struct Tally {
    pub lines: u64,
    pub accepted: u64,
    pub refused_6: u64,
    pub refused_7: u64,
    pub refused_9: u64,
    pub subframes: Subframes,
    pub clipped: Clippings,
}

// So many more, up to the same top.
#[tactic(auto, unfolding(crate::specs::Carried::plus))]
fn plus(n: u64, k: u8) -> u64
    ensures { result ≡ Carried.plus n k }
{
    n.saturating_add(u64::from(k))
}

// Where a lag is counted; there is no place 126.
#[tactic(auto, unfolding(crate::specs::Carried::lag_place, crate::specs::Figures::lag_of))]
pub fn lag_place(lag: i16) -> usize
    ensures { result ≡ Carried.lag_place lag }
{
    if lag < 19 { 126 } else { lag as usize - 19 }
}

pub fn larger(a: u64, b: u64) -> u64
    ensures { result ≡ Carried.larger a b }
{
    a.max(b)
}

// The smallest of n numbers and one more: the first is the smallest of itself.
#[tactic(auto, unfolding(crate::specs::Carried::smaller))]
pub fn smaller(n: u64, a: u64, b: u64) -> u64
    ensures { result ≡ Carried.smaller n a b }
{
    if n == 0 { b } else { a.min(b) }
}

// What was clipped in a subframe more.
#[tactic(auto, unfolding(crate::specs::Carried::added))]
pub fn added(t: Clippings, c: Clipped) -> Clippings
    ensures { result ≡ Carried.added t c }
{
    Clippings {
        prediction: plus(t.prediction, c.prediction),
        mixing: plus(t.mixing, c.mixing),
        synthesis: plus(t.synthesis, c.synthesis),
        output: plus(t.output, c.output),
    }
}

// Whether so many lines were counted that reading stops.
#[tactic(auto, unfolding(crate::specs::Figures::full))]
pub fn full(tally: Tally) -> bool
    ensures { result ≡ Figures.full tally }
{
    LIMIT <= tally.lines
}
