// The 24 fields of a frame by name: read off 20 bytes, written to them, and a gain index of two of them: bits.rs, and the two changes that mod.rs makes.
#![tactic(auto)]

ghost use Rattle.std.specs.Prelude.{◌≡◌, ◌+◌, ◌^◌, ◌<◌, ◌≤◌, leb, get_or, [], ◌∷◌};
ghost use Rattle.bits.specs.Bits as Bits;
ghost use Rattle.refusal.specs.Numbers.{told};

use bits::{FrameParams, HalfParams, gather, put_bytes, spread, width};
use refusal::Refusal;

// Has v more than w digits?
fn over(v: u16, w: usize) -> bool
    requires { w < 32 }
    ensures { result ≡ leb (2 ^ w) v }
{
    1 << w <= u32::from(v)
}

// Refused where a field is wider than its bits.
fn check_widths(fields: [u16; 24]) -> Result<(), Refusal>
    ensures { told result ≡ Bits.width_number fields }
{
    for k in 0..24 {
        if over(fields[k], width(k)) {
            return Err(Refusal::FieldWidth);
        }
    }
    Ok(())
}

// Four fields from a place on: a half is read by three of them, which is proved sooner than twelve reads in a row.
fn four(fields: [u16; 24], at: usize) -> [u16; 4]
    requires { at ≤ 20 }
    ensures { result ≡ get_or fields at 0 ∷ get_or fields (at + 1) 0 ∷ get_or fields (at + 2) 0 ∷ get_or fields (at + 3) 0 ∷ [] }
{
    [fields[at], fields[at + 1], fields[at + 2], fields[at + 3]]
}

// The fields of a half, of which the first is at a place.
pub fn half_params(fields: [u16; 24], at: usize) -> HalfParams
    requires { at ≤ 12 }
    ensures { result ≡ Bits.half_params fields at }
{
    let [gain_low0, gain_low1, code0, code1] = four(fields, at);
    let [gain_high0, gain_high1, mode, stage1] = four(fields, at + 4);
    let [stage2_low, stage2_high, absolute_pitch, relative_pitch] = four(fields, at + 8);
    HalfParams {
        gain_low0,
        gain_low1,
        code0,
        code1,
        gain_high0,
        gain_high1,
        mode,
        stage1,
        stage2_low,
        stage2_high,
        absolute_pitch,
        relative_pitch,
    }
}

// The fields of both halves, one after the other.
pub fn list(f: FrameParams) -> [u16; 24]
    ensures { result ≡ Bits.list f }
{
    let x = f.first;
    let y = f.second;
    [
        x.gain_low0,
        x.gain_low1,
        x.code0,
        x.code1,
        x.gain_high0,
        x.gain_high1,
        x.mode,
        x.stage1,
        x.stage2_low,
        x.stage2_high,
        x.absolute_pitch,
        x.relative_pitch,
        y.gain_low0,
        y.gain_low1,
        y.code0,
        y.code1,
        y.gain_high0,
        y.gain_high1,
        y.mode,
        y.stage1,
        y.stage2_low,
        y.stage2_high,
        y.absolute_pitch,
        y.relative_pitch,
    ]
}

// The fields of a payload, or what it is refused for.
pub fn unpack(payload: &[u8]) -> Result<FrameParams, Refusal>
    ensures { (result ≡ Bits.unpack payload.now) × (Bits.number result ≡ Bits.refusal payload.now) × (Bits.fields result ≡ Bits.fields_or_zero payload.now) }
{
    if payload.len() != 20 {
        return Err(Refusal::FrameLength);
    }
    if payload[19] & 0xc0 != 0 {
        return Err(Refusal::Padding);
    }
    let mut fields = gather(payload);
    // absolute_pitch of the first half
    fields[10] ^= 3;
    let first = half_params(fields, 0);
    let second = half_params(fields, 12);
    Ok(FrameParams { first, second })
}

// The fields that were read, or where the payload is refused, for whatever reason, 24 zeros.
pub fn fields<E: Drop>(u: Result<FrameParams, E>) -> FrameParams
    ensures { result ≡ Bits.fields u }
{
    u.unwrap_or_default()
}

// Writes the frame of these fields, once none of them is refused.
pub fn pack(f: FrameParams, out: &mut [u8]) -> Result<(), Refusal>
    ensures number { told result ≡ Bits.pack f out.old }
    ensures frame { out.new ≡ Bits.packed f out.old }
{
    if out.len() != 20 {
        return Err(Refusal::FrameLength);
    }
    let mut fields = list(f);
    check_widths(fields)?;
    // absolute_pitch of the first half, changed back
    fields[10] ^= 3;
    let bits = spread(fields);
    put_bytes(&bits, out);
    Ok(())
}

fn joined(high: u16, low: u16) -> usize
    ensures { result ≡ Bits.joined high low }
{
    usize::from(high % 8) * 16 + usize::from(low % 16)
}

// The gain index of subframe `sub` of the half, 0 or 1.
pub fn gain_index(h: HalfParams, sub: usize) -> usize
    ensures { result ≡ Bits.gain_index_of h sub }
{
    if sub == 0 {
        joined(h.gain_high0, h.gain_low0)
    } else {
        joined(h.gain_high1, h.gain_low1)
    }
}
