// A damaged recording mended: read, repair's call, write. The mended file goes to standard output, the list of what was changed to standard error.
#![tactic(auto)]

ghost use Rattle.std.specs.Prelude.{◌≡◌, false, true, length, IfOk, IfErr};
ghost use Rattle.repair.specs.declared.Mender.{Mender as AMender};
ghost use Rattle.repair.specs.Feed as Feed;
ghost use Rattle.turns.specs.Turns.{OfTurn};

use repair::Mender;
use std::ops::ControlFlow;
use turns::Told;

const PROGRAM: &[u8] = b"salvage";

fn write_list(rt: &HostRuntime, list: &[u8]) -> Result<usize, Told>
    ensures { IfOk result (λ n. n ≡ length list.now) }
{
    pipe::write_error(rt, list).map_err(|e| turns::tell(
        rt,
        PROGRAM,
        b": cannot write the list",
        e.why,
    ))
}

// One read, and all the text that it gives: where that leaves the file, and how long the mended text and the list were.
fn take_in(
    rt: &HostRuntime,
    mender: Mender,
    held: &mut [u8; 4096],
) -> Result<(ControlFlow<Mender, Mender>, usize, usize), Told>
    ensures took { IfOk result (λ t. OfTurn t.0 (λ next more. Feed.TookIn (Feed.standing mender held.old) (Feed.standing next held.new) t.1 t.2 more false)) }
    ensures failed { IfErr result (λ e. (next : AMender) × Feed.TookIn (Feed.standing mender held.old) (Feed.standing next held.new) 0 0 false true) }
{
    let mut chunk = io::buffer();
    let mut out = [0u8; 8273];
    let mut list = [0u8; 167977];
    let n = turns::read(rt, PROGRAM, &mut chunk)?;
    let fed = repair::answer(mender, held, &chunk[..n], &mut out, &mut list);
    let repaired = turns::write(rt, PROGRAM, &out[..fed.repaired])?;
    let listed = write_list(rt, &list[..fed.listed])?;
    Ok((turns::after(n > 0, fed.mender), repaired, listed))
}

// What failed is told.
fn main(rt: HostRuntime) {
    let mut held = io::buffer();
    let start = repair::begin();
    let _ = turns::take_turns(&rt, PROGRAM, b"reads", start, |mender| {
        let (turn, _, _) = take_in(&rt, mender, &mut held)?;
        Ok(turn)
    });
}
