// Frames in a receiver's digits as hexadecimal.
#![tactic(auto)]

use convert::Way;

fn main(rt: HostRuntime) {
    convert_console::run(&rt, Way::FromReceiver);
}
