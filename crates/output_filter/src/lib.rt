// The output filter's definitions: specs/ has all of them, and here stand the records that they and the code share.
#![tactic(auto)]

// State of the output reconstruction filter: three of each for the first section, and three for the second.
#[derive(Clone, Copy)]
pub struct OutputFilter {
    // Feed-forward delay lines.
    pub fir: [i16; 6],
    // Feedback delay lines.
    pub iir: [i32; 6],
}

// The words that both sections multiply by: forward, and back.
#[derive(Clone, Copy)]
pub struct Taps {
    pub ff: [i16; 4],
    pub fb: [i16; 3],
}

// What a section gives, in the definitions: its output, and what its feedback delay line takes in.
#[derive(Clone, Copy)]
pub struct Section {
    pub value: i16,
    pub memory: i32,
}

// What a sample leaves, in the definitions: the filter, and what comes of the sample.
#[derive(Clone, Copy)]
pub struct Step {
    pub filter: OutputFilter,
    pub value: i16,
}

// A section's delay lines, the last first: three inputs, and three of its sums.
#[derive(Clone, Copy)]
pub struct Lines {
    pub fir: [i16; 3],
    pub iir: [i32; 3],
}

// What a block leaves: the filter, and at how many samples saturation changed a value.
#[derive(Clone, Copy)]
pub struct Filtered {
    pub filter: OutputFilter,
    pub clipped: u8,
}
