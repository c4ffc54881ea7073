// Replays questions that were put to the Rust, those that need no tables: a line of numbers in, the answer's numbers out.
// The first number of a line names the module. The stored output is the Rust's own.
#![tactic(auto)]

mod of_bits;
mod of_fixed;
mod of_synth;

use questions::Question;

// 0 fixed, 1 synth, 2 bits
fn answer(rt: &HostRuntime, q: Question) {
    let n = q.numbers;
    let count = q.count;
    match n[0] {
        0 => of_fixed::answer(rt, n),
        1 => of_synth::answer(rt, n, count),
        2 => of_bits::answer(rt, n),
        _ => numbers::say(rt, &[]),
    }
}

fn main(rt: HostRuntime) {
    asking::each_asked(&rt, |q| answer(&rt, q));
}
