// The answers of bits: a payload; out come its number and fields, and where it is accepted the payload that the packer makes of them and the four gain indexes.
use bits::{FrameParams, HalfParams};
use numbers::{end_line, say, say_numbers};
use std::array;

fn byte(x: i64) -> u8 {
    (fixed::magnitude(x) % 256) as u8
}

fn payload(n: [i64; 128]) -> [u8; 20] {
    array::from_fn(|i| byte(n[1 + i]))
}

fn halves(number: i64, x: HalfParams, y: HalfParams) -> [i64; 25] {
    [
        number,
        i64::from(x.gain_low0),
        i64::from(x.gain_low1),
        i64::from(x.code0),
        i64::from(x.code1),
        i64::from(x.gain_high0),
        i64::from(x.gain_high1),
        i64::from(x.mode),
        i64::from(x.stage1),
        i64::from(x.stage2_low),
        i64::from(x.stage2_high),
        i64::from(x.absolute_pitch),
        i64::from(x.relative_pitch),
        i64::from(y.gain_low0),
        i64::from(y.gain_low1),
        i64::from(y.code0),
        i64::from(y.code1),
        i64::from(y.gain_high0),
        i64::from(y.gain_high1),
        i64::from(y.mode),
        i64::from(y.stage1),
        i64::from(y.stage2_low),
        i64::from(y.stage2_high),
        i64::from(y.absolute_pitch),
        i64::from(y.relative_pitch),
    ]
}

// The bytes, each after a blank.
fn say_bytes(rt: &HostRuntime, b: &[u8]) {
    for x in b {
        let _ = pipe::write(rt, b" ");
        numbers::say_digits(rt, u64::from(*x));
    }
}

// The gain index after a blank.
fn say_gain_index(rt: &HostRuntime, h: HalfParams, sub: usize) {
    let _ = pipe::write(rt, b" ");
    numbers::say_digits(rt, frame_params::gain_index(h, sub) as u64);
}

fn accepted(rt: &HostRuntime, f: FrameParams) {
    let mut room = [0u8; 20];
    // The fields are a frame's own, which are never refused.
    let _ = frame_params::pack(f, &mut room);
    let x = f.first;
    let y = f.second;
    say_numbers(rt, &halves(0, x, y));
    say_bytes(rt, &room);
    say_gain_index(rt, x, 0);
    say_gain_index(rt, x, 1);
    say_gain_index(rt, y, 0);
    say_gain_index(rt, y, 1);
    end_line(rt);
}

pub fn answer(rt: &HostRuntime, n: [i64; 128]) {
    match frame_params::unpack(&payload(n)) {
        Ok(f) => accepted(rt, f),
        Err(why) => say(
            rt,
            &halves(
                i64::from(why.number()),
                HalfParams::default(),
                HalfParams::default(),
            ),
        ),
    }
}
