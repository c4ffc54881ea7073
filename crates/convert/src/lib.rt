// A line of a file of frames: hexadecimal becomes a receiver's digits, or digits become hexadecimal.
#![tactic(auto)]

ghost use Rattle.std.specs.Prelude.{◌≡◌, ◌&&◌, [], ◌∷◌, ◌++◌, ◌+◌, ◌≤◌, ◌<◌, length};
ghost use Rattle.stream.specs.Room.{over};
ghost use Rattle.refusal.specs.Numbers.{number};
ghost use Rattle.receiver.specs.Receiver as Receiver;
ghost use Rattle.convert.specs.Convert as Convert;
ghost use Rattle.convert.specs.Halves as Halves;

use hex_lines::Line;
use refusal::Refusal;
use std::array;

// Which way a file goes.
#[derive(Clone, Copy)]
pub enum Way {
    ToReceiver,
    FromReceiver,
}

// The high four bits of a byte for an even place, the low four for an odd one.
fn half(b: u8, k: usize) -> u8
    ensures value { result ≡ Halves.half b k }
    ensures upper_bound { result < 16 }
{
    if k % 2 == 0 { b / 16 } else { b % 16 }
}

// Digit k of those that spell 20 bytes.
fn digit_at(payload: &[u8], k: usize) -> u8
    requires bytes { length payload.now ≡ 20 }
    requires below { k < 40 }
    ensures { result ≡ Halves.digit_at payload.now k }
{
    hex_lines::digit(half(payload[k / 2], k))
}

// The digits of 20 bytes.
fn hexadecimal(payload: &[u8]) -> [u8; 40]
    requires { length payload.now ≡ 20 }
    ensures { result ≡ Convert.hexadecimal payload.now }
{
    array::from_fn(|k| digit_at(payload, k))
}

// A line and its newline, over the beginning of out. The answer is their length.
fn put_line(line: &[u8], out: &mut [u8]) -> usize
    requires { length line.now + 1 ≤ length out.old }
    ensures length { result ≡ length (line.now ++ (10 ∷ [])) }
    ensures text { out.new ≡ over (line.now ++ (10 ∷ [])) out.old }
{
    let n = stream::put_at(line, 0, out);
    stream::put_at(b"\n", n, out)
}

// The line of a refusal.
fn put_refused(why: Refusal, out: &mut [u8]) -> usize
    requires { 163 ≤ length out.old }
    ensures length { result ≡ length (Convert.refused (number why)) }
    ensures text { out.new ≡ over (Convert.refused (number why)) out.old }
{
    stream::put_figure(b"refused ", u64::from(why.number()), 0, out)
}

// The line of digits of a frame, or its refusal.
fn put_digits(payload: [u8; 20], out: &mut [u8]) -> usize
    requires { 163 ≤ length out.old }
    ensures length { result ≡ length (Convert.line_or (Receiver.write_number payload) (Receiver.line_of payload)) }
    ensures text { out.new ≡ over (Convert.line_or (Receiver.write_number payload) (Receiver.line_of payload)) out.old }
{
    let mut digits = [b'0'; 162];
    match receiver::write(&payload, &mut digits) {
        Ok(()) => put_line(&digits, out),
        Err(why) => put_refused(why, out),
    }
}

// What a line of hexadecimal becomes.
fn to_receiver(line: &[u8], out: &mut [u8]) -> usize
    requires { 163 ≤ length out.old }
    ensures length { result ≡ length (Convert.to_receiver line.now) }
    ensures text { out.new ≡ over (Convert.to_receiver line.now) out.old }
{
    if line.len() != 40 {
        return put_refused(Refusal::NoFrameLine, out);
    }
    let mut text = [0u8; 40];
    stream::put(line, &mut text);
    let held = Line { text, n: 40 };
    if hex_lines::held_frame(held) {
        return put_digits(hex_lines::payload(text), out);
    }
    put_refused(Refusal::NoFrameLine, out)
}

// What a line of digits becomes.
fn from_receiver(line: &[u8], out: &mut [u8]) -> usize
    requires { 163 ≤ length out.old }
    ensures length { result ≡ length (Convert.from_receiver line.now) }
    ensures text { out.new ≡ over (Convert.from_receiver line.now) out.old }
{
    let mut payload = [0u8; 20];
    match receiver::read(line, &mut payload) {
        Ok(()) => put_line(&hexadecimal(&payload), out),
        Err(why) => put_refused(why, out),
    }
}

// Whether a line is a first `+`.
fn is_start(first: bool, line: &[u8]) -> bool
    ensures { result ≡ first && Convert.is_plus line.now }
{
    first && line == b"+".as_slice()
}

// The end of a line: its text goes over the beginning of out. The answer is how long it is.
pub fn put_text(way: Way, first: bool, line: &[u8], out: &mut [u8]) -> usize
    requires { 163 ≤ length out.old }
    ensures length { result ≡ length (Convert.text way first line.now) }
    ensures text { out.new ≡ over (Convert.text way first line.now) out.old }
{
    if is_start(first, line) {
        stream::put(b"+\n", out);
        return 2;
    }
    match way {
        Way::ToReceiver => to_receiver(line, out),
        Way::FromReceiver => from_receiver(line, out),
    }
}
