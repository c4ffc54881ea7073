// The 16-bit machine with an accumulator of 40 bits: products, shifts, and sums that wrap.
#![tactic(auto)]

ghost use Rattle.std.specs.Prelude.{◌≡◌, ◌≤◌, nat_abs, ◌+ℤ◌, length};
ghost use Rattle.std.specs.Int.{from_bool};
ghost use Rattle.std.specs.Int.Signed.{mag};
ghost use Rattle.sequence.specs.Count as Count;
ghost use Rattle.fixed.specs.Fixed as Fixed;
ghost use Rattle.fixed.specs.Clips as Clips;

// v wrapped to 40 bits, as the accumulator holds it.
pub fn acc(v: i64) -> i64
    ensures { result ≡ Fixed.acc v }
{
    (v << 24) >> 24
}

// One term more in a sum that the accumulator holds. Each is wrapped first, so that their sum is one of 64 bits, whatever they are.
pub fn fold(sum: i64, term: i64) -> i64
    ensures { result ≡ Fixed.fold sum term }
{
    acc(acc(sum) + acc(term))
}

// One term more in a sum that stays within 32 bits, where the accumulator does not wrap: in 32 bits, so that a loop makes four at a time.
pub fn fold_narrow(sum: i32, term: i32) -> i32
    requires { nat_abs (sum +ℤ term) ≤ 2147483647 }
    ensures { result ≡ Fixed.fold sum term }
{
    sum + term
}

// v saturated to 32 bits.
pub fn sat(v: i64) -> i64
    ensures { result ≡ Fixed.sat v }
{
    v.clamp(-2147483648, 2147483647)
}

// Whether saturation changes v.
pub fn clips(v: i64) -> bool
    ensures { result ≡ Fixed.clips v }
{
    v < -2147483648 || 2147483647 < v
}

// Whether x is at an end of 16 bits.
fn at_end(x: i16) -> bool
    ensures { result ≡ Clips.at_end x }
{
    x < -32767 || 32766 < x
}

// How many samples of a block are: where none is, saturation changed none. Eight are looked at at a time.
pub fn ends(block: &[i16]) -> u8
    requires { length block.now ≤ 80 }
    ensures { result ≡ Clips.ends block.now }
{
    let mut found = 0u8;
    for x in block {
        found += u8::from(at_end(*x));
    }
    found
}

// The low half of an accumulator.
pub fn low(v: i64) -> i16
    ensures { result ≡ Fixed.low v }
{
    ((v << 48) >> 48) as i16
}

// The high half of an accumulator.
pub fn hi(v: i64) -> i16
    ensures { result ≡ Fixed.hi v }
{
    low(v >> 16)
}

// What a store to 32 bits and a load keep.
pub fn trunc32(v: i64) -> i64
    ensures { result ≡ Fixed.trunc32 v }
{
    (v << 32) >> 32
}

// The fractional product: Q15 by Q15 is Q31.
pub fn mul(x: i16, y: i16) -> i64
    ensures { result ≡ Fixed.mul x y }
{
    (x as i64) * (y as i64) * 2
}

// The fractional product of an unsigned number, given by its bits, and a signed one.
pub fn mul_us(x: i16, y: i16) -> i64
    ensures { result ≡ Fixed.mul_us x y }
{
    ((x as i64) & 65535) * (y as i64) * 2
}

// A 32-bit number by a 16-bit one, by the halves of the first.
pub fn mul32x16(x: i64, y: i16) -> i64
    ensures { result ≡ Fixed.mul32x16 x y }
{
    let partial = acc(mul_us(low(x), y)) >> 16;
    fold(partial, mul(hi(x), y))
}

// v times 2 ^ s, rounded down, as an accumulator.
pub fn shift(v: i64, s: i32) -> i64
    ensures { result ≡ Fixed.shift v s }
{
    let n = s as i64;
    if n >= 0 {
        acc(v << (n & 63))
    } else {
        acc(v >> ((-n) & 63))
    }
}

// How far v is from 0 or, below it, from -1: no number of the library's, whose unsigned_abs is from 0 on both sides.
pub fn magnitude(v: i64) -> u64
    ensures { result ≡ mag v }
{
    if v < 0 { (!v) as u64 } else { v as u64 }
}

// A quotient and the exponent that it takes. Those of an accumulator that holds 0 are what the steps leave, and no reciprocal.
// Two cases, and no struct with a flag: `zero_exactly` of Reciprocals says of which number each of them is.
#[derive(Clone, Copy)]
pub enum Reciprocal {
    Zero(i64, i32),
    Ordinary(i64, i32),
}

impl Reciprocal {
    // Of either case.
    #[tactic(auto, unfolding(crate::specs::Fixed::quotient))]
    pub fn quotient(self) -> i64
        ensures { result ≡ Fixed.quotient self }
    {
        match self {
            Reciprocal::Zero(quotient, _) | Reciprocal::Ordinary(quotient, _) => quotient,
        }
    }

    #[tactic(auto, unfolding(crate::specs::Fixed::exponent))]
    pub fn exponent(self) -> i32
        ensures { result ≡ Fixed.exponent self }
    {
        match self {
            Reciprocal::Zero(_, exponent) | Reciprocal::Ordinary(_, exponent) => exponent,
        }
    }

    // Whether it is the reciprocal of 0, which a caller may count.
    #[tactic(auto, unfolding(crate::specs::Fixed::zeros))]
    pub fn is_zero(self) -> bool
        ensures { from_bool result ≡ Fixed.zeros self }
    {
        matches!(self, Reciprocal::Zero(_, _))
    }
}
