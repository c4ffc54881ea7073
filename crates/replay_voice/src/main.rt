// Replays questions that were put to the Rust, those that need tables or go with them: a line of numbers in, the answer's numbers out.
// The first number of a line names the module. The stored output is the Rust's own.
#![tactic(auto)]

mod of_codebook;
mod of_excitation;
mod of_lsp;
mod of_pitch;
mod of_postfilter;

ghost use Rattle.std.specs.Prelude.{◌≡◌, length};
ghost use Rattle.tables.specs.Places.{WORDS};
ghost use Rattle.tables.specs.SoundWords.{SoundWords};

use questions::Question;

// 3 lsp, 4 pitch, 5 codebook, 6 excitation, 7 postfilter, 8 pitch by the other set's taps
fn answer(rt: &HostRuntime, words: &[i16], other: &[i16], q: Question)
    requires { SoundWords words.now × (length other.now ≡ WORDS) }
{
    let n = q.numbers;
    match n[0] {
        3 => of_lsp::answer(rt, words, n),
        4 => of_pitch::answer(rt, words, n),
        5 => of_codebook::answer(rt, words, n),
        6 => of_excitation::answer(rt, n),
        7 => of_postfilter::answer(rt, words, n),
        8 => of_pitch::answer(rt, other, n),
        _ => numbers::say(rt, &[]),
    }
}

// What is asked on standard input.
fn asked_all(rt: &HostRuntime, words: &[i16], other: &[i16])
    requires { SoundWords words.now × (length other.now ≡ WORDS) }
{
    asking::each_asked(rt, |q| answer(rt, words, other, q));
}

// A set that breaks a rule has no answers.
fn replayed(rt: &HostRuntime, words: &[i16], bytes: &[u8], other: &[i16])
    requires { length other.now ≡ WORDS }
{
    if let Ok(()) = rules::check(words, bytes) {
        asked_all(rt, words, other);
    }
}

fn main(rt: HostRuntime) {
    let mut file = [0u8; 15835];
    let m = pipe::moved(pipe::read_file(&rt, b"narrow.bin", &mut file));
    let mut other = [0i16; 5963];
    if table_file::check_file(&file[..m], &mut other).is_ok() {
        let n = pipe::moved(pipe::read_file(&rt, b"tables.bin", &mut file));
        let mut words = [0i16; 5963];
        if table_file::check_file(&file[..n], &mut words).is_ok() {
            replayed(&rt, &words, &file[11926..15834], &other);
        }
    }
}
