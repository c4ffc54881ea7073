// No function: what the reflection coefficients of LPC numbers are, as definitions (specs/), and here the record of them.
#![tactic(auto)]

// Ten reflection coefficients, and at how many of the nine steps to them the residual was 0.
#[derive(Clone, Copy)]
pub struct Reflection {
    pub coefficients: [i16; 10],
    pub zero_residuals: u8,
}
