// The fixed codebook: the innovation that an index selects.
#![tactic(auto)]

ghost use Rattle.std.specs.Prelude.{◌≡◌, true, ◌+◌, ◌-◌, ◌≤◌, ◌<◌, min, length, nat_abs};
ghost use Rattle.tables.specs.Places.{LSF_CB1, WORDS};
ghost use Rattle.tables.specs.Places as Places;
ghost use Rattle.tables.specs.SoundWords.{SoundWords};
ghost use Rattle.code_index.specs.Codebook as Codebook;

use code_index::{ALT_CLASS, Innovation, MAX_PULSES, SUBFRAME, classify, decompose, pulses};
use tables::{FCB_ALT_A, FCB_ALT_B, FCB_POSITIONS, FCB_SHAPE_SEL, FCB_SHAPES, unsigned_word, word};

// Pulses of a half of that book, and the size of each, in Q15.
const ALT_PULSES: usize = 5;

const ALT_AMPLITUDE: i16 = 8192;

// Samples of a shape, and positions of a pulse.
const SHAPE_LEN: usize = 20;

const POSITIONS: usize = 40;

// y added to x, or subtracted; it wraps.
fn sum(add: bool, x: i16, y: i16) -> i16
    ensures { result ≡ Codebook.sum add x y }
{
    if add {
        fixed::low(i64::from(x) + i64::from(y))
    } else {
        fixed::low(i64::from(x) - i64::from(y))
    }
}

// How many of a shape's 20 samples are before the end.
fn span(start: usize) -> usize
    ensures { result ≡ min 20 (80 - start) }
{
    SHAPE_LEN.min(SUBFRAME.saturating_sub(start))
}

// A shape, from place start on, cut at the end.
fn place_shape(words: &[i16], shape: usize, start: usize, add: bool, code: &mut [i16; SUBFRAME])
    requires fact_1 { length words.now ≡ WORDS }
    requires fact_2 { shape < 32 }
    ensures { code.new ≡ Codebook.place_shape words.now shape start add code.old }
{
    let end = span(start);
    for n in 0..end {
        let y = sum(
            add,
            code[start + n],
            word(words, FCB_SHAPES + SHAPE_LEN * shape + n),
        );
        code[start + n] = y;
    }
}

// Whether pulse k is added.
fn added(rest: u16, k: usize) -> bool
    requires { k < 16 }
    ensures { result ≡ Codebook.added rest k }
{
    (rest >> k) % 2 == 1
}

// Pulse k, whose digit is slot.
fn place_slot(
    words: &[i16],
    class: usize,
    k: usize,
    slot: i16,
    add: bool,
    code: &mut [i16; SUBFRAME],
)
    requires fact_1 { SoundWords words.now }
    requires fact_2 { class < 5 }
    requires fact_3 { k < 3 }
    requires fact_4 { Codebook.slot_fits slot ≡ true }
    ensures { code.new ≡ Codebook.place_slot words.now class k slot add code.old }
{
    let at = POSITIONS * (MAX_PULSES * class + k) + (slot as usize);
    let start = usize::from(unsigned_word(words, FCB_POSITIONS + at));
    let shape = usize::from(unsigned_word(words, FCB_SHAPE_SEL + MAX_PULSES * class)) + k;
    place_shape(words, shape, start, add, code);
}

// The pulses of a class: a set sign bit adds the shape, a zero one subtracts it.
fn place_shapes(
    words: &[i16],
    class: usize,
    positions: [i16; MAX_PULSES],
    rest: u16,
    code: &mut [i16; SUBFRAME],
)
    requires fact_1 { SoundWords words.now }
    requires fact_2 { class < 5 }
    requires fact_3 { Codebook.slots_fit positions ≡ true }
    ensures { code.new ≡ Codebook.place_shapes words.now class positions rest code.old }
{
    let n = pulses(words, class);
    for k in 0..n {
        let slot = positions[k];
        let add = added(rest, k);
        place_slot(words, class, k, slot, add, code);
    }
}

// The place of a pulse, from 0.
fn place_of(entry: i16) -> usize
    requires fact_1 { 1 ≤ nat_abs entry }
    requires fact_2 { nat_abs entry ≤ 80 }
    ensures { result ≡ nat_abs entry - 1 }
{
    usize::from(entry.unsigned_abs()) - 1
}

// One pulse of the twin book.
fn place_pulse(entry: i16, code: &mut [i16; SUBFRAME])
    requires fact_1 { 1 ≤ nat_abs entry }
    requires fact_2 { nat_abs entry ≤ 80 }
    ensures { code.new ≡ Codebook.place_pulse entry code.old }
{
    let at = place_of(entry);
    let y = sum(0 < entry, code[at], ALT_AMPLITUDE);
    code[at] = y;
}

// The five pulses of a row, which is of either book.
fn place_pulses(words: &[i16], row: usize, code: &mut [i16; SUBFRAME])
    requires fact_1 { SoundWords words.now }
    requires fact_2 { Places.FCB_ALT_A ≤ row }
    requires fact_3 { row + 5 ≤ LSF_CB1 }
    ensures { code.new ≡ Codebook.place_pulses words.now row code.old }
{
    for entry in &words[row..row + ALT_PULSES] {
        place_pulse(*entry, code);
    }
}

// The twin five-pulse book.
fn alternative(words: &[i16], rest: u16, code: &mut [i16; SUBFRAME])
    requires { SoundWords words.now }
    ensures { code.new ≡ Codebook.alternative words.now rest code.old }
{
    let r = usize::from(rest);
    place_pulses(words, FCB_ALT_A + ALT_PULSES * (r / 128), code);
    place_pulses(words, FCB_ALT_B + ALT_PULSES * (r % 128), code);
}

// The innovation of an index whose digits fit.
pub fn decode(words: &[i16], index: u16) -> Innovation
    requires fact_1 { SoundWords words.now }
    requires fact_2 { Codebook.digits_fit words.now index ≡ true }
    ensures { result ≡ Codebook.decode words.now index }
{
    let c = classify(words, index);
    let class = c.class;
    let rest = c.rest;
    let mut code = [0i16; SUBFRAME];
    if class == ALT_CLASS {
        alternative(words, rest, &mut code);
        return Innovation { code, class };
    }
    let positions = decompose(words, class, rest);
    place_shapes(words, class, positions, rest, &mut code);
    Innovation { code, class }
}
