// Decodes a recording: document 01's program, on its whole case.
#![tactic(auto)]

fn main(rt: HostRuntime) {
    console::run(&rt);
}
