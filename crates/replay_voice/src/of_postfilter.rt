// The answers of postfilter: a seed; out come 16 of its samples, filtered after 24 that the seed 1000 on gives.
ghost use Rattle.std.specs.Prelude.{◌≡◌, length};
ghost use Rattle.tables.specs.Places.{WORDS};

use fixed::magnitude;
use numbers::{samples, say_line};
use output_filter::OutputFilter;

// The zero filter after 24 samples.
fn begun(words: &[i16], seed: u64) -> OutputFilter
    requires { length words.now ≡ WORDS }
{
    let mut block = [0i16; 24];
    samples(seed, &mut block);
    let zero = OutputFilter {
        fir: [0; 6],
        iir: [0; 6],
    };
    let left = postfilter::run(zero, words, &mut block);
    left.filter
}

pub fn answer(rt: &HostRuntime, words: &[i16], n: [i64; 128])
    requires { length words.now ≡ WORDS }
{
    let seed = magnitude(n[1]) % 65536;
    let filter = begun(words, seed + 1000);
    let mut block = [0i16; 16];
    samples(seed, &mut block);
    postfilter::run(filter, words, &mut block);
    say_line(rt, &block);
}
