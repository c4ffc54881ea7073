// What a frame is refused with, before it is decoded: the refusals in their order.
#![tactic(auto)]

ghost use Rattle.std.specs.Prelude.{◌≡◌, length};
ghost use Rattle.refusal.specs.Numbers as Numbers;
ghost use Rattle.tables.specs.SoundWords.{SoundWords};
ghost use Rattle.bits.specs.Bits as Bits;
ghost use Rattle.observation.specs.Frame as Frame;
ghost use Rattle.calls.specs.Checks as Checks;
ghost use Rattle.calls.specs.Frames as Frames;

use bits::FrameParams;
use refusal::{Refusal, told};
use state::State;

// The refusal number of what comes before a frame is looked at, or 0: the set's lengths, the sizes of what is lent with it (2, 3 or 0), the set's rules, the state.
// Numbers and no Result: it hands on any number of sizes, and a narrower type would ask more of its callers.
pub fn checked(words: &[i16], bytes: &[u8], state: State, sizes: u8) -> u8
    ensures { result ≡ Checks.checked words.now bytes.now state sizes }
{
    let set = told(rules::check(words, bytes));
    if set == 1 {
        return 1;
    }
    if sizes != 0 {
        return sizes;
    }
    if set != 0 {
        return 4;
    }
    if !state::obeys(state) {
        return 5;
    }
    0
}

// A frame's sizes.
pub fn frame_sizes(payload: usize, room: usize) -> Result<(), Refusal>
    ensures { Numbers.told result ≡ Checks.frame_sizes payload room }
{
    if room != 320 {
        return Err(Refusal::Room);
    }
    if payload != 20 {
        return Err(Refusal::FrameLength);
    }
    Ok(())
}

// Those of 1 to 64 frames laid end to end; here the payloads are tried before the rooms.
pub fn frames_sizes(payloads: usize, room: usize, answers: usize) -> Result<(), Refusal>
    ensures { Numbers.told result ≡ Frames.frames_sizes payloads room answers }
{
    let n = payloads / 20;
    if payloads != 20 * n || n < 1 || 64 < n {
        return Err(Refusal::FrameLength);
    }
    if room != 320 * n || answers != n {
        return Err(Refusal::Room);
    }
    Ok(())
}

// Whether refusal 7 has nothing against the four code indexes.
fn digits_fit(words: &[i16], f: FrameParams) -> bool
    requires { SoundWords words.now }
    ensures { result ≡ Frame.digits_fit words.now f }
{
    code_index::digits_fit(words, f.first.code0)
        && code_index::digits_fit(words, f.first.code1)
        && code_index::digits_fit(words, f.second.code0)
        && code_index::digits_fit(words, f.second.code1)
}

// What a payload of 20 bytes is refused with. The fields are the payload's, where it has any.
pub fn spoilt(words: &[i16], payload: &[u8], f: FrameParams) -> Result<(), Refusal>
    requires fact_1 { SoundWords words.now }
    requires fact_2 { length payload.now ≡ 20 }
    requires fact_3 { f ≡ Bits.fields (Bits.unpack payload.now) }
    ensures { Numbers.told result ≡ Checks.spoilt words.now payload.now }
{
    if payload[19] & 0xc0 != 0 {
        return Err(Refusal::Padding);
    }
    if digits_fit(words, f) {
        return Ok(());
    }
    Err(Refusal::CodeIndex)
}
