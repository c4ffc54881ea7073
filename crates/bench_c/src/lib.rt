// The decoder's calls over a whole recording, under C names, for tools/bench.
#![tactic(auto)]

ghost use Rattle.std.specs.Prelude.{◌≡◌, ◌*◌, ◌/◌, ◌≤◌, length};
ghost use Rattle.tables.specs.Tables as Tables;
ghost use Rattle.bench_c.specs.Bench as Bench;

// The table check alone.
#[unsafe(no_mangle)]
pub extern "C" fn bench_check(words: &[i16], bytes: &[u8]) -> u8
    ensures { result ≡ Tables.check words.now bytes.now }
{
    refusal::told(rules::check(words, bytes))
}

// Every 20 bytes a frame, decoded from reset, each over the samples of the one before; the mark that the last one leaves.
#[unsafe(no_mangle)]
pub extern "C" fn bench_run(words: &[i16], bytes: &[u8], frames: &[u8], samples: &mut [i16]) -> u8
    ensures mark { result ≡ (Bench.after words.now bytes.now frames.now (length samples.old) (length frames.now / 20)).mark }
    ensures samples { samples.new ≡ Bench.samples words.now bytes.now frames.now (length samples.old) samples.old (length frames.now / 20) }
{
    let start = state::reset(words, bytes);
    let mut state = start.state;
    let n = frames.len() / 20;
    for k in 0..n {
        let at = 20 * k;
        let end = at + 20;
        let a = celp::decode(words, bytes, state, &frames[at..end], samples);
        let next = a.state;
        state = next;
    }
    state.mark
}

// Parts of so many bytes, n of them, each handed to one call from the state that the one before left, over the same rooms; the mark that the last one leaves.
#[unsafe(no_mangle)]
pub extern "C" fn bench_frames(
    words: &[i16],
    bytes: &[u8],
    frames: &[u8],
    size: usize,
    n: usize,
    samples: &mut [i16],
    numbers: &mut [u8],
) -> u8
    requires { size * n ≤ length frames.now }
    ensures mark { result ≡ (Bench.after_parts words.now bytes.now size frames.now (length samples.old) (length numbers.old) n).mark }
    ensures samples { samples.new ≡ Bench.samples_parts words.now bytes.now size frames.now (length samples.old) (length numbers.old) samples.old n }
    ensures numbers { numbers.new ≡ Bench.numbers_parts words.now bytes.now size frames.now (length samples.old) (length numbers.old) numbers.old n }
{
    let start = state::reset(words, bytes);
    let mut state = start.state;
    for k in 0..n {
        let at = size * k;
        let end = at + size;
        let a = celp::decode_frames(words, bytes, state, &frames[at..end], samples, numbers);
        let next = a.state;
        state = next;
    }
    state.mark
}
