// No function: what a half frame is, as definitions (specs/), and here the records that it is handed and that it leaves.
#![tactic(auto)]

use output_filter::OutputFilter;
use pitch::Lag;

// What a half frame carries on: the parts of the state but for the spectrum's.
#[derive(Clone, Copy)]
pub struct Core {
    pub lsp: [i16; 10],
    pub excitation: [i16; 154],
    pub memory: [i16; 10],
    pub sharpen_fixed: i16,
    pub last_half_lag: i16,
    pub filter: OutputFilter,
    pub gains: [f32; 4],
}

// What the frame's fields and the spectrum settle of a subframe.
#[derive(Clone, Copy)]
pub struct SubframeParams {
    pub lpc: [i16; 11],
    pub lag: Lag,
    pub index: u16,
    pub gain_index: usize,
}

// Those of both subframes of a half. No type parameter shared with lsp's Pair: two fields are as short, and the definitions name their type.
#[derive(Clone, Copy)]
pub struct ParamsPair {
    pub first: SubframeParams,
    pub second: SubframeParams,
}

// A subframe as it was decoded: the two gains, the gain history before it, its shaped innovation and its excitation among the rest, and
// at how many steps of its reflection the residual was 0.
#[derive(Clone, Copy)]
pub struct SubframeTrace {
    pub lag: Lag,
    pub code_class: usize,
    pub gain_index: usize,
    pub pitch_gain: i16,
    pub code_gain: i16,
    pub gains: [f32; 4],
    pub lpc: [i16; 11],
    pub innovation: [i16; 80],
    pub mixed_excitation: [i16; 80],
    pub zero_residuals: u8,
}

// That, and what the next subframe starts from.
#[derive(Clone, Copy)]
pub struct Subframe {
    pub trace: SubframeTrace,
    pub sharpen_fixed: i16,
    pub gains: [f32; 4],
}

// At how many of a subframe's 80 samples saturation changed a value: in prediction, in mixing, in synthesis, in the output filter.
#[derive(Clone, Copy)]
pub struct Clipped {
    pub prediction: u8,
    pub mixing: u8,
    pub synthesis: u8,
    pub output: u8,
}

// The first two of these.
#[derive(Clone, Copy)]
pub struct Counts {
    pub prediction: u8,
    pub mixing: u8,
}

// A subframe with them.
#[derive(Clone, Copy)]
pub struct Counted {
    pub subframe: Subframe,
    pub counts: Counts,
}

// What the synthesis filter leaves of a subframe, and at how many samples saturation changed a value.
#[derive(Clone, Copy)]
pub struct Memory {
    pub memory: [i16; 10],
    pub clipped: u8,
}

// What either filter leaves of two.
#[derive(Clone, Copy)]
pub struct Synthesised {
    pub memory: [i16; 10],
    pub first: u8,
    pub second: u8,
}

#[derive(Clone, Copy)]
pub struct Filtered {
    pub filter: OutputFilter,
    pub first: u8,
    pub second: u8,
}

// A half frame as it was decoded, and what the next one starts from.
#[derive(Clone, Copy)]
pub struct Half {
    pub core: Core,
    pub first: SubframeTrace,
    pub second: SubframeTrace,
    pub first_clipped: Clipped,
    pub second_clipped: Clipped,
}
