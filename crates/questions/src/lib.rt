// A question is a line of numbers in decimal, as the replaying programs read it.
#![tactic(auto)]

ghost use Rattle.std.specs.Prelude.{◌≡◌, ◌<◌, ◌≤◌, length};
ghost use Rattle.questions.specs.Questions as Questions;

// The numbers of a line, 128 at most, and where the next line begins.
// The array with a count beside it stays: there is no heap here, and a line may have any number up to 128.
#[derive(Clone, Copy)]
pub struct Question {
    pub count: usize,
    pub numbers: [i64; 128],
    pub next: usize,
}

// A line that is being read: the numbers that are complete, and the digits of the next.
#[derive(Clone, Copy)]
pub struct Reading {
    pub count: usize,
    pub numbers: [i64; 128],
    pub digits: u64,
    pub negative: bool,
}

// A number of at most 63 bits by its digits; one that is wider is the smallest or the largest.
#[tactic(auto, unfolding(crate::specs::Questions::signed))]
fn signed(digits: u64, negative: bool) -> i64
    ensures { result ≡ Questions.signed digits negative }
{
    match i64::try_from(digits) {
        Ok(n) if negative => -n,
        Ok(n) => n,
        Err(_) if negative => i64::MIN,
        Err(_) => i64::MAX,
    }
}

// The number that was being read is complete; behind the 128th there is no place.
#[tactic(auto, unfolding(crate::specs::Questions::ended))]
fn ended(r: &mut Reading)
    ensures { r.new ≡ Questions.ended r.old }
{
    if r.count < 128 {
        r.numbers[r.count] = signed(r.digits, r.negative);
        r.count += 1;
    }
    r.digits = 0;
    r.negative = false;
}

// A byte more: one from the digit 0 on goes on with the number, a minus is kept, anything else ends it. In place, since a copy of 128 numbers for each byte
// takes longer.
#[tactic(auto, unfolding(crate::specs::Questions::step))]
fn step(r: &mut Reading, b: u8)
    ensures { r.new ≡ Questions.step r.old b }
{
    match b {
        b'0'.. => r.digits = r.digits % 1000000000000000000 * 10 + u64::from(b) % 16,
        b'-' => r.negative = true,
        _ => ended(r),
    }
}

fn asked(r: Reading, next: usize) -> Question
    ensures { result ≡ Questions.asked r next }
{
    let numbers = r.numbers;
    Question {
        count: r.count,
        numbers,
        next,
    }
}

// The line of s that begins at from; each of its numbers ends with a blank or with the line.
pub fn line(s: &[u8], from: usize) -> Question
    requires { from < length s.now }
    ensures value { result ≡ Questions.line s.now from }
    ensures from_lt_next { (from < result.next) × (result.next ≤ length s.now) }
{
    let mut r = Reading {
        count: 0,
        numbers: [0; 128],
        digits: 0,
        negative: false,
    };
    let rest = &s[from..];
    for (i, b) in rest.iter().enumerate() {
        step(&mut r, *b);
        if *b == b'\n' {
            return asked(r, from + i + 1);
        }
    }
    asked(r, s.len())
}
