// The answers of synth: eleven coefficients, ten of memory, the inputs; out come the outputs and the memory.
use numbers::{end_line, say_words, words};

fn filtered(rt: &HostRuntime, a: &[i16], input: &[i16], output: &mut [i16], mem: &mut [i16]) {
    if a.len() != 11 {
        return;
    }
    if mem.len() != 10 {
        return;
    }
    if 80 < input.len() {
        return;
    }
    if output.len() != input.len() {
        return;
    }
    synthesis::synthesis(a, input, output, mem);
    say_words(rt, output, false);
    say_words(rt, mem, 0 < input.len());
    end_line(rt);
}

fn first(
    rt: &HostRuntime,
    a: &[i16],
    input: &[i16],
    output: &mut [i16],
    mem: &mut [i16],
    len: usize,
) {
    if input.len() < len {
        return;
    }
    if output.len() < len {
        return;
    }
    filtered(rt, a, &input[..len], &mut output[..len], mem);
}

pub fn answer(rt: &HostRuntime, n: [i64; 128], count: usize) {
    let mut a = [0i16; 11];
    let mut mem = [0i16; 10];
    let mut input = [0i16; 80];
    let mut output = [0i16; 80];
    words(n, 1, &mut a);
    words(n, 12, &mut mem);
    words(n, 22, &mut input);
    if 22 <= count {
        first(rt, &a, &input, &mut output, &mut mem, count - 22);
    }
}
