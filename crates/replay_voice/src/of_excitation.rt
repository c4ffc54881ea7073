// The answers of excitation: reflection, the gain before, lag, the lag before; out come the two gains.
use fixed::low;
use numbers::say_line;

pub fn answer(rt: &HostRuntime, n: [i64; 128]) {
    let g = excitation::interpolation_gains(low(n[1]), low(n[2]), low(n[3]), low(n[4]));
    say_line(rt, &[g.fixed, g.voiced]);
}
