// Replays questions that were put to the Rust, those on floats: a line of numbers in, the answer's numbers out, a float by its bits.
// The first number of a line names the module. The stored output is the Rust's own, with our logarithm and exponential put into it.
#![tactic(auto)]

mod of_gain;
mod of_spectral;

ghost use Rattle.std.specs.Prelude.{◌≡◌, length};
ghost use Rattle.tables.specs.Places.{WORDS, BYTES};

use questions::Question;

// 9 spectral, 10 gain
fn answer(rt: &HostRuntime, words: &[i16], bytes: &[u8], q: Question)
    requires { (length words.now ≡ WORDS) × (length bytes.now ≡ BYTES) }
{
    let n = q.numbers;
    match n[0] {
        9 => of_spectral::answer(rt, words, bytes, n),
        10 => of_gain::answer(rt, bytes, n),
        _ => numbers::say(rt, &[]),
    }
}

// What is asked on standard input.
fn asked_all(rt: &HostRuntime, words: &[i16], bytes: &[u8])
    requires { (length words.now ≡ WORDS) × (length bytes.now ≡ BYTES) }
{
    asking::each_asked(rt, |q| answer(rt, words, bytes, q));
}

fn main(rt: HostRuntime) {
    let mut file = [0u8; 15835];
    let n = pipe::moved(pipe::read_file(&rt, b"tables.bin", &mut file));
    let mut words = [0i16; 5963];
    if table_file::check_file(&file[..n], &mut words).is_ok() {
        asked_all(&rt, &words, &file[11926..15834]);
    }
}
