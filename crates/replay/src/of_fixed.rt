// The answers of fixed: the operation's number, then its arguments.
use numbers::say;

fn word(x: i64) -> i16 {
    fixed::low(x)
}

// An amount of 32 bits.
fn amount(x: i64) -> i32 {
    fixed::trunc32(x) as i32
}

fn divided(v: i64, by: i16, steps: u64) -> i64 {
    reciprocal::restoring_divide(fixed::acc(v), by, (steps % 64) as u32)
}

fn one(rt: &HostRuntime, x: i64) {
    say(rt, &[x]);
}

pub fn answer(rt: &HostRuntime, n: [i64; 128]) {
    let v = n[2];
    let x = word(v);
    let y = word(n[3]);
    match n[1] {
        0 => one(rt, fixed::acc(v)),
        1 => one(rt, fixed::sat(v)),
        2 => one(rt, i64::from(fixed::hi(v))),
        3 => one(rt, i64::from(fixed::low(v))),
        4 => one(rt, fixed::mul(x, y)),
        5 => one(rt, fixed::mul_us(x, y)),
        6 => one(rt, fixed::mul32x16(v, y)),
        7 => one(rt, fixed::trunc32(v)),
        8 => one(rt, i64::from(reciprocal::exp(v))),
        9 => one(rt, fixed::shift(v, amount(n[3]))),
        10 => one(rt, divided(v, y, fixed::magnitude(n[4]))),
        _ => {
            let r = reciprocal::normalised_reciprocal(v);
            say(
                rt,
                &[
                    r.quotient(),
                    i64::from(r.exponent()),
                    i64::from(r.is_zero()),
                ],
            );
        }
    }
}
