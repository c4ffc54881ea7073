// A state as 526 bytes, and read back: the parts in document 01's order, the lowest byte first, a float by its bits.
#![tactic(auto)]

ghost use Rattle.std.specs.Prelude.{◌≡◌, map, ◌+◌, ◌*◌, ◌≤◌, length};
ghost use Rattle.std.specs.Float.{binary32};
ghost use Rattle.std.specs.Float.Ieee.{of_bits};
ghost use Rattle.image.specs.Parts as Parts;
ghost use Rattle.image.specs.Image as Image;

use state::State;

// The places of the parts, each behind the one before it.
pub const LSP: usize = 0;

pub const EXCITATION: usize = LSP + 2 * 10;

pub const MEMORY: usize = EXCITATION + 2 * 154;

pub const SHARPEN_FIXED: usize = MEMORY + 2 * 10;

pub const LAST_HALF_LAG: usize = SHARPEN_FIXED + 2;

pub const FIR: usize = LAST_HALF_LAG + 2;

pub const IIR: usize = FIR + 2 * 6;

pub const RESIDUALS: usize = IIR + 4 * 6;

pub const GAINS: usize = RESIDUALS + 4 * 30;

pub const MARK: usize = GAINS + 4 * 4;

pub const SURE: usize = MARK + 1;

// How many bytes an image has.
pub const SIZE: usize = SURE + 1;

// A number of 16 bits with its sign, out of its two bytes.
fn word(low: u8, high: u8) -> i16
    ensures { result ≡ Image.signed 2 (low + 256 * high) }
{
    i16::from_le_bytes([low, high])
}

// A number of 32 bits with its sign.
fn long(n: u32) -> i32
    ensures { result ≡ Image.signed 4 n }
{
    n.cast_signed()
}

// The words from a place on, as many as `out` has.
pub fn read_words(bytes: &[u8], at: usize, out: &mut [i16])
    requires { at + 2 * length out.old ≤ length bytes.now }
    ensures { out.new ≡ map (Image.signed 2) (Parts.numbers_at 2 (length out.old) bytes.now at) }
{
    // By index: where the bytes stand follows from the place of the number.
    for k in 0..out.len() {
        out[k] = word(bytes[at + 2 * k], bytes[at + 2 * k + 1]);
    }
}

// The numbers of 32 bits from a place on.
fn read_longs(bytes: &[u8], at: usize, out: &mut [i32])
    requires { at + 4 * length out.old ≤ length bytes.now }
    ensures { out.new ≡ map (Image.signed 4) (Parts.numbers_at 4 (length out.old) bytes.now at) }
{
    // By index: where the bytes stand follows from the place of the number.
    for k in 0..out.len() {
        out[k] = long(floats::bits_at(bytes, at + 4 * k));
    }
}

// The floats from a place on.
fn read_floats(bytes: &[u8], at: usize, out: &mut [f32])
    requires { at + 4 * length out.old ≤ length bytes.now }
    ensures { out.new ≡ map (of_bits binary32) (Parts.numbers_at 4 (length out.old) bytes.now at) }
{
    // By index: where the bytes stand follows from the place of the number.
    for k in 0..out.len() {
        out[k] = floats::float_at(bytes, at + 4 * k);
    }
}

// The state that an image holds.
pub fn read(bytes: &[u8]) -> State
    requires { length bytes.now ≡ Image.SIZE }
    ensures { result ≡ Image.state bytes.now }
{
    let mut lsp = [0i16; 10];
    let mut excitation = [0i16; 154];
    let mut memory = [0i16; 10];
    let mut sharpen_fixed = [0i16; 1];
    let mut last_half_lag = [0i16; 1];
    let mut fir = [0i16; 6];
    let mut iir = [0i32; 6];
    let mut residuals = [0.0f32; 30];
    let mut gains = [0.0f32; 4];
    read_words(bytes, LSP, &mut lsp);
    read_words(bytes, EXCITATION, &mut excitation);
    read_words(bytes, MEMORY, &mut memory);
    read_words(bytes, SHARPEN_FIXED, &mut sharpen_fixed);
    read_words(bytes, LAST_HALF_LAG, &mut last_half_lag);
    read_words(bytes, FIR, &mut fir);
    read_longs(bytes, IIR, &mut iir);
    read_floats(bytes, RESIDUALS, &mut residuals);
    read_floats(bytes, GAINS, &mut gains);
    State {
        lsp,
        excitation,
        memory,
        sharpen_fixed: sharpen_fixed[0],
        last_half_lag: last_half_lag[0],
        fir,
        iir,
        residuals,
        gains,
        mark: bytes[MARK],
        sure: bytes[SURE],
    }
}
