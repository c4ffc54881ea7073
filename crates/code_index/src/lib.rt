// A code index taken apart: its class, its place in it, and the positions' digits; and refusal 7, by them.
#![tactic(auto)]

ghost use Rattle.std.specs.Prelude.{◌≡◌, ◌+◌, ◌-◌, ◌<◌, length};
ghost use Rattle.std.specs.List.{list_all};
ghost use Rattle.tables.specs.Places.{WORDS};
ghost use Rattle.tables.specs.SoundWords.{SoundWords};
ghost use Rattle.code_index.specs.Codebook as Codebook;

use tables::{
    FCB_CLASS_BASE, FCB_INDEX_LIMIT, FCB_PULSES, FCB_RADIX, FCB_RADIX_INV, unsigned_word, word,
};

// The class of the twin five-pulse book, which is the highest.
pub const ALT_CLASS: usize = 5;

// The most pulses that a class has.
pub const MAX_PULSES: usize = 3;

// Samples of an innovation.
pub const SUBFRAME: usize = 80;

// An innovation, and the class that it came from.
#[derive(Drop)]
pub struct Innovation {
    pub code: [i16; SUBFRAME],
    pub class: usize,
}

// The class of an index, and its place within the class.
#[derive(Drop)]
pub struct Classified {
    pub class: usize,
    pub rest: u16,
}

// The index, cut to the limit less one.
#[tactic(auto, unfolding(crate::specs::Codebook::cut))]
fn cut(words: &[i16], index: u16) -> u16
    requires { SoundWords words.now }
    ensures { result ≡ Codebook.cut words.now index }
{
    let last = unsigned_word(words, FCB_INDEX_LIMIT) - 1;
    index.min(last)
}

// A cut index's class: the first, from the highest down, whose base it reaches.
fn class_of(words: &[i16], index: u16) -> usize
    requires { SoundWords words.now }
    ensures { result ≡ Codebook.class_of words.now index }
{
    for k in (0..=ALT_CLASS).rev() {
        if unsigned_word(words, FCB_CLASS_BASE + k) <= index {
            return k;
        }
    }
    0
}

// The class that an index selects.
pub fn classify(words: &[i16], index: u16) -> Classified
    requires { SoundWords words.now }
    ensures { result ≡ Codebook.classify words.now index }
{
    let i = cut(words, index);
    let class = class_of(words, i);
    Classified {
        class,
        rest: i - unsigned_word(words, FCB_CLASS_BASE + class),
    }
}

// x by the radix of digit k, by its inverse.
fn quotient(words: &[i16], class: usize, k: usize, x: i16) -> i16
    requires fact_1 { length words.now ≡ WORDS }
    requires fact_2 { class < 5 }
    requires fact_3 { k < 3 }
    ensures { result ≡ Codebook.quotient words.now class k x }
{
    let y = word(words, FCB_RADIX_INV + MAX_PULSES * class + k);
    ((i64::from(x) * i64::from(y)) >> 17) as i16
}

// What that leaves of x.
fn remainder(words: &[i16], class: usize, k: usize, x: i16) -> i16
    requires fact_1 { length words.now ≡ WORDS }
    requires fact_2 { class < 5 }
    requires fact_3 { k < 3 }
    ensures { result ≡ Codebook.remainder words.now class k x }
{
    let q = quotient(words, class, k, x);
    let y = word(words, FCB_RADIX + MAX_PULSES * class + k);
    fixed::low(i64::from(x) - i64::from(q) * i64::from(y))
}

// How many pulses a class has.
pub fn pulses(words: &[i16], class: usize) -> usize
    requires { (length words.now ≡ WORDS) × (class < 5) }
    ensures { result ≡ Codebook.pulses words.now class }
{
    usize::from(unsigned_word(words, FCB_PULSES + class))
}

// The position digits of the pulses, the last pulse's first.
pub fn decompose(words: &[i16], class: usize, rest: u16) -> [i16; MAX_PULSES]
    requires fact_1 { SoundWords words.now }
    requires fact_2 { class < 5 }
    ensures { result ≡ Codebook.decompose words.now class rest }
{
    let n = pulses(words, class);
    let mut x = (rest >> n) as i16;
    let mut positions = [0i16; MAX_PULSES];
    for k in (0..n).rev() {
        positions[k] = remainder(words, class, k, x);
        x = quotient(words, class, k, x);
    }
    positions
}

// Whether a digit is one of a pulse's 40 positions.
fn slot_fits(slot: i16) -> bool
    ensures { result ≡ Codebook.slot_fits slot }
{
    0 <= slot && slot <= 39
}

// Whether all are. Where there is no pulse the digit is 0.
fn slots_fit(positions: [i16; MAX_PULSES]) -> bool
    ensures { result ≡ list_all Codebook.slot_fits positions }
{
    positions.iter().all(|slot| slot_fits(*slot))
}

// Whether refusal 7 has nothing against an index.
pub fn digits_fit(words: &[i16], index: u16) -> bool
    requires { SoundWords words.now }
    ensures { result ≡ Codebook.digits_fit words.now index }
{
    let c = classify(words, index);
    c.class == ALT_CLASS || slots_fit(decompose(words, c.class, c.rest))
}
