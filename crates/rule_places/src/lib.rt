// The set rules place by place: whether a place of a lent table set breaks its rule.
#![tactic(auto)]

ghost use Rattle.std.specs.Prelude.{◌≡◌, ◌<◌, length};
ghost use Rattle.tables.specs.Places as Places;
ghost use Rattle.tables.specs.Tables as Tables;

use tables::{
    FCB_ALT_A, FCB_INDEX_LIMIT, FCB_POSITIONS, FCB_PULSES, FCB_SHAPE_SEL, unsigned_word, word,
};

// Whether the k-th place of rule 1 breaks it: the limit, and the bases after it.
pub fn limit_bad(words: &[i16], k: usize) -> bool
    requires fact_1 { length words.now ≡ Places.WORDS }
    requires fact_2 { k < 7 }
    ensures { result ≡ Tables.limit_bad words.now k }
{
    let x = unsigned_word(words, FCB_INDEX_LIMIT + k);
    match k {
        0 => x == 0,
        1 => x != 0,
        _ => x < unsigned_word(words, FCB_INDEX_LIMIT + k - 1),
    }
}

// Whether x is within low..=high.
fn between(low: i16, high: i16, x: i16) -> bool
    ensures { result ≡ Tables.between low high x }
{
    low <= x && x <= high
}

// Rule 2's k-th place.
pub fn pulses_bad(words: &[i16], k: usize) -> bool
    requires fact_1 { length words.now ≡ Places.WORDS }
    requires fact_2 { k < 5 }
    ensures { result ≡ Tables.pulses_bad words.now k }
{
    !between(2, 3, word(words, FCB_PULSES + k))
}

// Rule 3's: a class has three selectors, of which the first is read.
pub fn selector_bad(words: &[i16], k: usize) -> bool
    requires fact_1 { length words.now ≡ Places.WORDS }
    requires fact_2 { k < 5 }
    ensures { result ≡ Tables.selector_bad words.now k }
{
    !between(0, 29, word(words, FCB_SHAPE_SEL + 3 * k))
}

// Rule 4's.
pub fn position_bad(words: &[i16], k: usize) -> bool
    requires fact_1 { length words.now ≡ Places.WORDS }
    requires fact_2 { k < 600 }
    ensures { result ≡ Tables.position_bad words.now k }
{
    word(words, FCB_POSITIONS + k) < 0
}

// Rule 5's: FCB_ALT_B follows FCB_ALT_A.
pub fn entry_bad(words: &[i16], k: usize) -> bool
    requires fact_1 { length words.now ≡ Places.WORDS }
    requires fact_2 { k < 3200 }
    ensures { result ≡ Tables.entry_bad words.now k }
{
    let x = word(words, FCB_ALT_A + k);
    !between(-80, -1, x) && !between(1, 80, x)
}

// Rule 6's.
pub fn float_bad(bytes: &[u8], k: usize) -> bool
    requires fact_1 { length bytes.now ≡ Places.BYTES }
    requires fact_2 { k < 977 }
    ensures { result ≡ Tables.float_bad bytes.now k }
{
    !floats::pattern_within(floats::bits_at(bytes, 4 * k))
}
