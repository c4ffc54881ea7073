// What the programs share that read, write what that gives, and go on to their input's end. What fails is told on standard error, and ends the program.
#![tactic(auto)]

ghost use Rattle.std.specs.Prelude.{◌≡◌, length, IfOk};
ghost use Rattle.io.specs.Counts.{IsPrefixLen};
ghost use Rattle.turns.specs.Turns.{turned, TurnsTo};

use std::io::Error;
use std::ops::ControlFlow;

// A call failed, and standard error says so.
#[derive(Clone, Copy)]
pub struct Told;

// A line to standard error: the program's name, what failed, and why. Name and what failed are one write where both are short, so that nothing comes between.
pub fn tell(rt: &HostRuntime, program: &[u8], what: &[u8], why: Error) -> Told {
    if program.len() <= 32 && what.len() <= 32 {
        let mut room = [0u8; 64];
        let n = program.len();
        let m = n + what.len();
        room[..n].copy_from_slice(program);
        room[n..m].copy_from_slice(what);
        pipe::tell(rt, &room[..m], why);
    } else {
        let _ = pipe::write_error(rt, program);
        pipe::tell(rt, what, why);
    }
    Told
}

// Standard input's next bytes, at the start of room; none where it is at its end.
pub fn read(rt: &HostRuntime, program: &[u8], room: &mut [u8]) -> Result<usize, Told>
    ensures { IfOk result (λ n. IsPrefixLen n room.new) }
{
    pipe::read(rt, room).map_err(|why| tell(rt, program, b": cannot read", why))
}

// The table file's bytes, at the start of room; none where it is missing.
pub fn read_tables(rt: &HostRuntime, program: &[u8], room: &mut [u8]) -> Result<usize, Told>
    ensures { IfOk result (λ n. IsPrefixLen n room.new) }
{
    pipe::read_file(rt, b"tables.bin", room).map_err(|e| tell(
        rt,
        program,
        b": cannot read tables.bin",
        e.why,
    ))
}

// All of the text to standard output.
pub fn write(rt: &HostRuntime, program: &[u8], text: &[u8]) -> Result<usize, Told>
    ensures { IfOk result (λ n. n ≡ length text.now) }
{
    pipe::write(rt, text).map_err(|e| tell(rt, program, b": cannot write", e.why))
}

// What a turn leaves: to go on with, where there may be more.
pub fn after<S>(more: bool, left: S) -> ControlFlow<S, S>
    ensures { result ≡ turned more left }
{
    if more {
        ControlFlow::Continue(left)
    } else {
        ControlFlow::Break(left)
    }
}

// Turn after turn, until one is the last: what that leaves. A proved loop has to end and nothing says that an input does, so the turns are
// counted. A read takes 50 ns or more, so that 2^64 - 1 of them take 29,000 years; a run that came to their end would say so.
pub fn take_turns<S: Drop, F: FnMut(S) -> Result<ControlFlow<S, S>, Told>>(
    rt: &HostRuntime,
    program: &[u8],
    counted: &[u8],
    start: S,
    mut turn: F,
) -> Result<S, Told>
    requires { F.IsAlwaysCallable turn }
    ensures { IfOk result (λ last. TurnsTo F.step turn start last) }
{
    let mut left = start;
    for _ in 0..u64::MAX {
        match turn(left)? {
            ControlFlow::Continue(next) => left = next,
            ControlFlow::Break(last) => return Ok(last),
        }
    }
    let _ = pipe::write_error(rt, program);
    let _ = pipe::write_error(rt, b": stopped after 18446744073709551615 ");
    let _ = pipe::write_error(rt, counted);
    let _ = pipe::write_error(rt, b"\n");
    Err(Told)
}
