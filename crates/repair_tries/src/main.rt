// Damaged recordings that salvage is tried on. A line of standard input names a file. A heading follows, what salvage writes of it, `|` where that ends, and the list.
#![tactic(auto)]

ghost use Rattle.std.specs.Prelude.{◌≤◌, length};

use repair::Mender;

// What one chunk gives: its list is written, or its text; an empty one is the end.
fn part(
    rt: &HostRuntime,
    mender: Mender,
    held: &mut [u8; 4096],
    chunk: &[u8],
    listing: bool,
) -> Mender
    requires { length chunk.now ≤ 999 }
{
    let mut out = [0u8; 2079];
    let mut list = [0u8; 41000];
    let fed = repair::answer(mender, held, chunk, &mut out, &mut list);
    let _ = if listing {
        pipe::write(rt, &list[..fed.listed])
    } else {
        pipe::write(rt, &out[..fed.repaired])
    };
    fed.mender
}

// A file in chunks of 999 bytes, so that lines are cut by them.
fn play(rt: &HostRuntime, held: &mut [u8; 4096], input: &[u8], listing: bool) {
    let mut mender = repair::begin();
    for chunk in input.chunks(999) {
        mender = part(rt, mender, held, chunk, listing);
    }
    part(rt, mender, held, &[], listing);
}

// A case: the file's name. A file that is not there is empty.
fn attempt(rt: &HostRuntime, name: &[u8]) {
    let mut input = [0u8; 65536];
    let mut held = io::buffer();
    let m = pipe::moved(pipe::read_file(rt, name, &mut input));
    attempts::head(rt, name);
    play(rt, &mut held, &input[..m], false);
    let _ = pipe::write(rt, b"|\n");
    play(rt, &mut held, &input[..m], true);
}

fn main(rt: HostRuntime) {
    attempts::each_case(&rt, |line| attempt(&rt, line));
}
