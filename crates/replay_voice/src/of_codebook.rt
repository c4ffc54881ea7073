// The answers of codebook: an index; out comes 0 where a digit does not fit, else 1, the class and the innovation.
ghost use Rattle.tables.specs.SoundWords.{SoundWords};

use code_index::Innovation;
use numbers::{end_line, say, say_words};

fn index(x: i64) -> u16 {
    (fixed::magnitude(x) % 65536) as u16
}

fn say_innovation(rt: &HostRuntime, i: Innovation) {
    let _ = pipe::write(rt, b"1 ");
    numbers::say_digits(rt, i.class as u64);
    let code = i.code;
    say_words(rt, &code, true);
    end_line(rt);
}

pub fn answer(rt: &HostRuntime, words: &[i16], n: [i64; 128])
    requires { SoundWords words.now }
{
    let i = index(n[1]);
    if code_index::digits_fit(words, i) {
        say_innovation(rt, codebook::decode(words, i));
    } else {
        say(rt, &[0]);
    }
}
