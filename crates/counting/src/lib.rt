// The counts of the term report, carried on from line to line.
#![tactic(auto)]

ghost use Rattle.std.specs.Prelude.{◌≡◌, []};
ghost use Rattle.tally.specs.Figures as Figures;
ghost use Rattle.tally.specs.Carried as Carried;

use half::Clipped;
use observation::Subframe;
use tally::{Clippings, Subframes, Tally};

// One more. A count that stands at its top stays, so that no tally can overflow; none that began at 0 comes near it.
#[tactic(auto, unfolding(tally::specs::Carried::more))]
fn more(n: u64) -> u64
    ensures { result ≡ Carried.more n }
{
    n.saturating_add(1)
}

fn more_if(n: u64, counts: bool) -> u64
    ensures { result ≡ Carried.more_if n counts }
{
    if counts { more(n) } else { n }
}

// One more at place k, if there is one.
fn bump(counts: &mut [u64], k: usize)
    ensures { counts.new ≡ Carried.bump counts.old k }
{
    if k < counts.len() {
        counts[k] = more(counts[k]);
    }
}

// A whole number that is held as a float.
fn whole(x: f32) -> u64
    ensures { result ≡ Figures.whole x }
{
    floats::quantise(32767, x) as u64
}

// Of no line.
pub fn empty() -> Tally
    ensures { result ≡ Figures.tally 0 [] }
{
    Tally {
        lines: 0,
        accepted: 0,
        refused_6: 0,
        refused_7: 0,
        refused_9: 0,
        subframes: Subframes {
            n: 0,
            classes: [0; 6],
            lags: [0; 126],
            gain_indexes: [0; 128],
            largest: 0,
            smallest: 0,
        },
        clipped: Clippings {
            prediction: 0,
            mixing: 0,
            synthesis: 0,
            output: 0,
        },
    }
}

// A subframe more.
fn counted(t: Subframes, s: Subframe) -> Subframes
    ensures { result ≡ Carried.counted t s }
{
    let figures = s.figures;
    let gain = whole(figures[8]);
    let mut classes = t.classes;
    let mut lags = t.lags;
    let mut gain_indexes = t.gain_indexes;
    bump(&mut classes, whole(figures[11]) as usize);
    bump(&mut lags, tally::lag_place(s.lag));
    bump(&mut gain_indexes, whole(figures[0]) as usize);
    Subframes {
        n: more(t.n),
        classes,
        lags,
        gain_indexes,
        largest: tally::larger(t.largest, gain),
        smallest: tally::smaller(t.n, t.smallest, gain),
    }
}

// A frame's subframes more.
fn counted_all(t: Subframes, s: [Subframe; 4]) -> Subframes
    ensures { result ≡ Carried.counted_all t s }
{
    let a = counted(t, s[0]);
    let b = counted(a, s[1]);
    let c = counted(b, s[2]);
    counted(c, s[3])
}

fn added_all(t: Clippings, s: [Clipped; 4]) -> Clippings
    ensures { result ≡ Carried.added_all t s }
{
    let a = tally::added(t, s[0]);
    let b = tally::added(a, s[1]);
    let c = tally::added(b, s[2]);
    tally::added(c, s[3])
}

pub fn with_frame(tally: Tally, s: [Subframe; 4], c: [Clipped; 4]) -> Tally
    ensures { result ≡ Carried.with_frame tally s c }
{
    let subframes = counted_all(tally.subframes, s);
    let clipped = added_all(tally.clipped, c);
    Tally {
        subframes,
        clipped,
        ..tally
    }
}

// A line more, of a number; 0 where it was accepted.
pub fn numbered(tally: Tally, number: u8) -> Tally
    ensures { result ≡ Carried.numbered tally number }
{
    Tally {
        lines: more(tally.lines),
        accepted: more_if(tally.accepted, number == 0),
        refused_6: more_if(tally.refused_6, number == 6),
        refused_7: more_if(tally.refused_7, number == 7),
        refused_9: more_if(tally.refused_9, number == 9),
        ..tally
    }
}

// A line more that no figure has: it ends a recording, or says that one was heard from its start.
pub fn uncounted(tally: Tally) -> Tally
    ensures { result ≡ Carried.uncounted tally }
{
    Tally {
        lines: more(tally.lines),
        ..tally
    }
}
