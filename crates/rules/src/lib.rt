// The set rules: whether a lent table set obeys them, and which it breaks first and where.
#![tactic(auto)]

ghost use Rattle.std.specs.Prelude.{◌≡◌, ◌<◌, ℕ, Bool, length};
ghost use Rattle.std.specs.List.{list_any};
ghost use Rattle.refusal.specs.Numbers.{told};
ghost use Rattle.sequence.specs.First.{first, some};
ghost use Rattle.tables.specs.Places as Places;
ghost use Rattle.tables.specs.Tables as Tables;
ghost use Rattle.rules.specs.Rule as Of;

use refusal::Refusal;
use rule_places::{entry_bad, float_bad, limit_bad, position_bad, pulses_bad, selector_bad};
use tables::{
    BYTES, FCB_ALT_A, FCB_INDEX_LIMIT, FCB_POSITIONS, FCB_PULSES, FCB_SHAPE_SEL, Fault, PITCH_GAIN,
    WORDS,
};

// What each rule is of, in the order of its number, from 1 on.
#[derive(Clone, Copy)]
enum Rule {
    Limit,
    Pulses,
    Selector,
    Position,
    Entry,
    Float,
}

const RULES: [Rule; 6] = [
    Rule::Limit,
    Rule::Pulses,
    Rule::Selector,
    Rule::Position,
    Rule::Entry,
    Rule::Float,
];

impl Rule {
    fn number(self) -> u8
        ensures { result ≡ Of.number self }
    {
        match self {
            Rule::Limit => 1,
            Rule::Pulses => 2,
            Rule::Selector => 3,
            Rule::Position => 4,
            Rule::Entry => 5,
            Rule::Float => 6,
        }
    }

    // How many places it has.
    #[tactic(auto, unfolding(tables::specs::Tables::count))]
    fn count(self) -> usize
        ensures { result ≡ Tables.count (Of.number self) }
    {
        match self {
            Rule::Limit => 7,
            Rule::Pulses => 5,
            Rule::Selector => 5,
            Rule::Position => 600,
            Rule::Entry => 3200,
            Rule::Float => 977,
        }
    }

    // Where its k-th place is.
    #[tactic(auto, unfolding(tables::specs::Tables::count, tables::specs::Tables::place))]
    fn place(self, k: usize) -> usize
        requires { k < Tables.count (Of.number self) }
        ensures { result ≡ Tables.place (Of.number self) k }
    {
        match self {
            Rule::Limit => FCB_INDEX_LIMIT + k,
            Rule::Pulses => FCB_PULSES + k,
            Rule::Selector => FCB_SHAPE_SEL + 3 * k,
            Rule::Position => FCB_POSITIONS + k,
            Rule::Entry => FCB_ALT_A + k,
            Rule::Float => PITCH_GAIN + 4 * k,
        }
    }

    // Whether its k-th place breaks it.
    #[tactic(auto, unfolding(tables::specs::Tables::count, tables::specs::Tables::bad))]
    fn bad(self, words: &[i16], bytes: &[u8], k: usize) -> bool
        requires words_long { length words.now ≡ Places.WORDS }
        requires bytes_long { length bytes.now ≡ Places.BYTES }
        requires a_place { k < Tables.count (Of.number self) }
        ensures { result ≡ Tables.bad words.now bytes.now (Of.number self) k }
    {
        match self {
            Rule::Limit => limit_bad(words, k),
            Rule::Pulses => pulses_bad(words, k),
            Rule::Selector => selector_bad(words, k),
            Rule::Position => position_bad(words, k),
            Rule::Entry => entry_bad(words, k),
            Rule::Float => float_bad(bytes, k),
        }
    }

    // Whether one of its places breaks it.
    #[tactic(auto, unfolding(tables::specs::Tables::broken, tables::specs::Tables::count, tables::specs::Tables::bad))]
    fn is_broken(self, words: &[i16], bytes: &[u8]) -> bool
        requires words_long { length words.now ≡ Places.WORDS }
        requires bytes_long { length bytes.now ≡ Places.BYTES }
        ensures { result ≡ Tables.broken words.now bytes.now (Of.number self) }
    {
        match self {
            Rule::Limit => some(7, |k| limit_bad(words, k)),
            Rule::Pulses => some(5, |k| pulses_bad(words, k)),
            Rule::Selector => some(5, |k| selector_bad(words, k)),
            Rule::Position => some(600, |k| position_bad(words, k)),
            Rule::Entry => some(3200, |k| entry_bad(words, k)),
            Rule::Float => some(977, |k| float_bad(bytes, k)),
        }
    }

    // The first of its places that breaks it, or the number of them.
    fn first_bad(self, words: &[i16], bytes: &[u8]) -> usize
        requires words_long { length words.now ≡ Places.WORDS }
        requires bytes_long { length bytes.now ≡ Places.BYTES }
        ensures { result ≡ first (Tables.bad words.now bytes.now (Of.number self)) (Tables.count (Of.number self)) }
    {
        let n = self.count();
        for k in 0..n {
            if self.bad(words, bytes, k) {
                return k;
            }
        }
        n
    }
}

// The lowest set rule that is broken and its first offending place; both are 0 where none is broken.
pub fn first_fault(words: &[i16], bytes: &[u8]) -> Fault
    requires fact_1 { length words.now ≡ Places.WORDS }
    requires fact_2 { length bytes.now ≡ Places.BYTES }
    ensures { result ≡ Tables.first_fault words.now bytes.now }
{
    for rule in RULES {
        let k = rule.first_bad(words, bytes);
        if k < rule.count() {
            return Fault {
                rule: rule.number(),
                place: rule.place(k),
            };
        }
    }
    Fault { rule: 0, place: 0 }
}

// Whether one of n places offends. It does not stop at one: a loop with one way out is done several places at a time.
fn some<F: Fn(usize) -> bool>(n: usize, offends: F) -> bool
    requires { (k : ℕ) → k < n → F.pre offends k }
    ensures { (p : ℕ → Bool) → ((k : ℕ) (b : Bool) → k < n → F.post offends k b → b ≡ p k) → result ≡ some p n }
{
    let mut any = false;
    for k in 0..n {
        any |= offends(k);
    }
    any
}

// Whether a rule is broken.
fn any_broken(words: &[i16], bytes: &[u8]) -> bool
    requires words_long { length words.now ≡ Places.WORDS }
    requires bytes_long { length bytes.now ≡ Places.BYTES }
    ensures { result ≡ list_any (λ rule. Tables.broken words.now bytes.now (Of.number rule)) RULES }
{
    RULES.iter().any(|rule| rule.is_broken(words, bytes))
}

// What a set is refused with: 1 for a wrong length, else 4 for a broken rule.
pub fn check(words: &[i16], bytes: &[u8]) -> Result<(), Refusal>
    ensures { told result ≡ Tables.check words.now bytes.now }
{
    if words.len() != WORDS || bytes.len() != BYTES {
        return Err(Refusal::TablesLength);
    }
    if any_broken(words, bytes) {
        return Err(Refusal::TablesRule);
    }
    Ok(())
}
