// Lines of hexadecimal: what is held of a line, frames in, samples and refusals out; and the table file.
#![tactic(auto)]

ghost use Rattle.std.specs.Prelude.{◌≡◌, true, [], ◌+◌, ◌*◌, ◌%◌, ◌≤◌, ◌<◌, length};
ghost use Rattle.std.proofs.lemmas.List.Edits.{sets};
ghost use Rattle.sequence.specs.All.{all};
ghost use Rattle.stream.specs.Room.{over};
ghost use Rattle.hex_lines.specs.Text as Text;
ghost use Rattle.hex_lines.specs.Held as Held;

use std::array;

// What is kept of the line that is coming in: its first 40 bytes, and how many it has, counted to 41.
#[derive(Clone, Copy)]
pub struct Line {
    pub text: [u8; 40],
    pub n: usize,
}

pub fn empty() -> Line
    ensures { result ≡ Held.kept [] }
{
    Line {
        text: [0; 40],
        n: 0,
    }
}

// A byte more.
pub fn push(line: Line, b: u8) -> Line
    ensures { result ≡ Held.push line b }
{
    let n = line.n;
    let mut l = line;
    if n < 40 {
        l.text[n] = b;
        l.n = n + 1;
        return l;
    }
    l.n = 41;
    l
}

// What a digit of either case is worth; 16 for any other byte.
// 16 and no Option, since the definition that theorems hold, `Text.value`, gives 16.
pub fn value(c: u8) -> u8
    ensures { result ≡ Text.value c }
{
    match c {
        b'0'..=b'9' => c - b'0',
        b'a'..=b'f' => c - b'a' + 10,
        b'A'..=b'F' => c - b'A' + 10,
        _ => 16,
    }
}

fn is_digit(c: u8) -> bool
    ensures { result ≡ Text.is_digit c }
{
    value(c) < 16
}

fn all_digits(text: &[u8]) -> bool
    ensures { result ≡ all Text.is_digit text.now }
{
    text.iter().all(|&c| is_digit(c))
}

// Whether the line that is held is a frame.
pub fn held_frame(line: Line) -> bool
    ensures frame { result ≡ Text.is_frame (Held.held_line line) }
    ensures whole { result ≡ true → (line.n ≡ 40) × (Held.held_line line ≡ line.text) }
{
    line.n == 40 && all_digits(&line.text)
}

// Whether the line that is held is this one byte.
pub fn is_only(line: Line, b: u8) -> bool
    ensures { result ≡ Text.is_only b (Held.held_line line) }
{
    line.n == 1 && line.text[0] == b
}

// Byte k of those that 40 digits spell.
fn byte_at(text: &[u8; 40], k: usize) -> u8
    requires digits { all Text.is_digit text.now ≡ true }
    requires below { k < 20 }
    ensures { result ≡ Text.byte_at text.now k }
{
    16 * value(text[2 * k]) + value(text[2 * k + 1])
}

// The bytes of 40 digits.
pub fn payload(text: [u8; 40]) -> [u8; 20]
    requires { all Text.is_digit text ≡ true }
    ensures { result ≡ Text.payload text }
{
    array::from_fn(|k| byte_at(&text, k))
}

// The digit of a number below 16, lower-case.
pub fn digit(n: u8) -> u8
    requires { n < 16 }
    ensures { result ≡ Text.digit n }
{
    if n < 10 { b'0' + n } else { b'a' + (n - 10) }
}

// The digit of a number's low four bits.
fn last_digit(n: u16) -> u8
    ensures { result ≡ Text.digit (n % 16) }
{
    digit((n % 16) as u8)
}

fn put_digits(n: u16, out: &mut [u8], at: usize)
    requires { at + 4 ≤ length out.old }
    ensures { out.new ≡ sets out.old at (Text.four_digits n) }
{
    out[at] = last_digit(n / 4096);
    out[at + 1] = last_digit(n / 256);
    out[at + 2] = last_digit(n / 16);
    out[at + 3] = last_digit(n);
}

// Samples from a place of out on, four digits each.
fn put_samples(samples: &[i16], out: &mut [u8], at: usize)
    requires { at + 4 * length samples.now ≤ length out.old }
    ensures { out.new ≡ sets out.old at (Text.sample_text samples.now) }
{
    // By index: where the digits go follows from the place of the sample.
    for k in 0..samples.len() {
        put_digits(tables::unsigned_word(samples, k), out, at + 4 * k);
    }
}

// The line of an accepted frame. The answer is its length.
pub fn put_frame(mark: u8, samples: &[i16], out: &mut [u8]) -> usize
    requires fact_1 { mark < 16 }
    requires fact_2 { length samples.now ≡ 320 }
    requires fact_3 { 1283 ≤ length out.old }
    ensures length { result ≡ 1283 }
    ensures text { out.new ≡ over (Text.frame_text mark samples.now) out.old }
{
    out[0] = digit(mark);
    out[1] = b' ';
    put_samples(samples, out, 2);
    out[1282] = b'\n';
    1283
}

fn refused_text(number: u8) -> [u8; 10]
    requires { number < 16 }
    ensures { result ≡ Text.refused_text number }
{
    let mut text = *b"refused 0\n";
    text[8] = digit(number);
    text
}

// The line of a refusal. The answer is its length.
pub fn put_refused(number: u8, out: &mut [u8]) -> usize
    requires fact_1 { number < 16 }
    requires fact_2 { 1283 ≤ length out.old }
    ensures length { result ≡ 10 }
    ensures text { out.new ≡ over (Text.refused_text number) out.old }
{
    let text = refused_text(number);
    stream::put(&text, out);
    10
}
