// Frames in hexadecimal as a receiver's digits.
#![tactic(auto)]

use convert::Way;

fn main(rt: HostRuntime) {
    convert_console::run(&rt, Way::ToReceiver);
}
