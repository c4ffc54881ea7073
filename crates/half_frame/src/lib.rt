// A half frame: LSPs and fields in, 160 samples and the figures of two subframes out.
#![tactic(auto)]

ghost use Rattle.std.specs.Prelude.{◌≡◌, true, length};
ghost use Rattle.tables.specs.Places.{WORDS};
ghost use Rattle.tables.specs.Sound.{Sound};
ghost use Rattle.code_index.specs.Codebook as Codebook;
ghost use Rattle.bits.specs.Widths.{InWidths};
ghost use Rattle.synth.specs.Synth as Synth;
ghost use Rattle.output_filter.specs.Postfilter as Postfilter;
ghost use Rattle.half.specs.Core as Spec;

use bits::HalfParams;
use frame_params::gain_index;
use half::{
    Clipped, Core, Filtered, Half, Memory, ParamsPair, SubframeParams, SubframeTrace, Synthesised,
};
use lsp::interpolate_pair;
use output_filter::OutputFilter;
use pitch::{decode_absolute, decode_relative};

// What the fields and the spectrum settle of both subframes of a half.
fn split_params(previous: [i16; 10], present: [i16; 10], params: HalfParams) -> ParamsPair
    requires { InWidths params }
    ensures { result ≡ Spec.split_params previous present params }
{
    let pair = interpolate_pair(previous, present);
    let a = pair.first;
    let b = pair.second;
    let lag = decode_absolute(params.absolute_pitch);
    let next = decode_relative(params.relative_pitch, lag.integer);
    ParamsPair {
        first: SubframeParams {
            lpc: a,
            lag,
            index: params.code0,
            gain_index: gain_index(params, 0),
        },
        second: SubframeParams {
            lpc: b,
            lag: next,
            index: params.code1,
            gain_index: gain_index(params, 1),
        },
    }
}

// Room for the excitation of a half: the samples that are kept, and the 160 to come.
fn room(past: [i16; 154]) -> [i16; 314]
    ensures { result ≡ Spec.room past }
{
    let mut exc = [0i16; 314];
    exc[..154].copy_from_slice(&past);
    exc
}

fn kept(exc: &[i16]) -> [i16; 154]
    requires { length exc.now ≡ 314 }
    ensures { result ≡ Spec.kept exc.now }
{
    let mut past = [0i16; 154];
    past.copy_from_slice(&exc[160..314]);
    past
}

// A subframe through the synthesis filter.
fn synthesise(lpc: [i16; 11], input: [i16; 80], memory: [i16; 10], samples: &mut [i16]) -> Memory
    requires { length samples.old ≡ 80 }
    ensures memory { result.memory ≡ Synth.memory lpc memory input }
    ensures samples { samples.new ≡ Synth.synthesis lpc memory input }
    ensures clipped { result.clipped ≡ Synth.clipped lpc memory input }
{
    let mut mem = memory;
    let clipped = synthesis::synthesis(&lpc[..], &input[..], samples, &mut mem[..]);
    Memory {
        memory: mem,
        clipped,
    }
}

// Both subframes, one after the other.
fn synthesise_both(
    first: SubframeTrace,
    second: SubframeTrace,
    memory: [i16; 10],
    samples: &mut [i16],
) -> Synthesised
    requires { length samples.old ≡ 160 }
    ensures left { result ≡ Spec.synthesis_left first second memory }
    ensures samples { samples.new ≡ Spec.synthesised first second memory }
{
    let between = synthesise(
        first.lpc,
        first.mixed_excitation,
        memory,
        &mut samples[..80],
    );
    let behind = synthesise(
        second.lpc,
        second.mixed_excitation,
        between.memory,
        &mut samples[80..],
    );
    let left = behind.memory;
    Synthesised {
        memory: left,
        first: between.clipped,
        second: behind.clipped,
    }
}

// Both through the output filter, each by itself, so that its clipped samples are counted by themselves.
fn filter_both(filter: OutputFilter, words: &[i16], samples: &mut [i16]) -> Filtered
    requires fact_1 { length words.now ≡ WORDS }
    requires fact_2 { length samples.old ≡ 160 }
    ensures left { result ≡ Spec.filter_left words.now filter samples.old }
    ensures samples { samples.new ≡ Postfilter.outputs words.now filter samples.old }
{
    let between = postfilter::run(filter, words, &mut samples[..80]);
    let behind = postfilter::run(between.filter, words, &mut samples[80..]);
    Filtered {
        filter: behind.filter,
        first: between.clipped,
        second: behind.clipped,
    }
}

// A half frame, by its LSPs and its fields.
pub fn decode(
    words: &[i16],
    bytes: &[u8],
    core: Core,
    lsp: [i16; 10],
    params: HalfParams,
    samples: &mut [i16],
) -> Half
    requires fact_1 { Sound words.now bytes.now }
    requires fact_2 { InWidths params }
    requires fact_3 { Codebook.digits_fit words.now params.code0 ≡ true }
    requires fact_4 { Codebook.digits_fit words.now params.code1 ≡ true }
    requires fact_5 { length samples.old ≡ 160 }
    ensures half { result ≡ Spec.half words.now bytes.now core lsp params }
    ensures samples { samples.new ≡ Spec.samples words.now bytes.now core lsp params }
{
    let pair = split_params(core.lsp, lsp, params);
    let mut exc = room(core.excitation);
    let a = subframe::decode_subframe(
        words,
        bytes,
        &mut exc,
        154,
        pair.first,
        core.sharpen_fixed,
        core.last_half_lag,
        core.gains,
    );
    let first = a.subframe;
    let b = subframe::decode_subframe(
        words,
        bytes,
        &mut exc,
        234,
        pair.second,
        first.sharpen_fixed,
        core.last_half_lag,
        first.gains,
    );
    let second = b.subframe;
    let left = synthesise_both(first.trace, second.trace, core.memory, samples);
    let run = filter_both(core.filter, words, samples);
    let excitation = kept(&exc[..]);
    let memory = left.memory;
    let gains = second.gains;
    Half {
        core: Core {
            lsp,
            excitation,
            memory,
            sharpen_fixed: second.sharpen_fixed,
            last_half_lag: second.trace.lag.integer,
            filter: run.filter,
            gains,
        },
        first: first.trace,
        second: second.trace,
        first_clipped: Clipped {
            prediction: a.counts.prediction,
            mixing: a.counts.mixing,
            synthesis: left.first,
            output: run.first,
        },
        second_clipped: Clipped {
            prediction: b.counts.prediction,
            mixing: b.counts.mixing,
            synthesis: left.second,
            output: run.second,
        },
    }
}
