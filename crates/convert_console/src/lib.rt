// The two converting programs: read, converter's call, write.
#![tactic(auto)]

ghost use Rattle.std.specs.Prelude.{false, IfOk};
ghost use Rattle.converter.specs.Feed as Feed;
ghost use Rattle.turns.specs.Turns.{OfTurn};

use convert::Way;
use converter::Converter;
use std::ops::ControlFlow;
use turns::Told;

fn program(way: Way) -> &'static [u8] {
    match way {
        Way::ToReceiver => b"to_receiver",
        Way::FromReceiver => b"from_receiver",
    }
}

// One read, and all the text that it gives: where that leaves the file, and how long the text was.
fn take_in(
    rt: &HostRuntime,
    way: Way,
    converter: Converter,
) -> Result<(ControlFlow<Converter, Converter>, usize), Told>
    ensures { IfOk result (λ t. OfTurn t.0 (λ next more. Feed.TookIn way converter next t.1 more false)) }
{
    let mut chunk = io::buffer();
    let mut room = [0u8; 47014];
    let n = turns::read(rt, program(way), &mut chunk)?;
    let fed = converter::answer(way, converter, &chunk[..n], &mut room);
    let sent = turns::write(rt, program(way), &room[..fed.n])?;
    Ok((turns::after(n > 0, fed.converter), sent))
}

// What failed is told.
pub fn run(rt: &HostRuntime, way: Way) {
    let start = converter::begin();
    let _ = turns::take_turns(rt, program(way), b"reads", start, |converter| {
        let (turn, _) = take_in(rt, way, converter)?;
        Ok(turn)
    });
}
