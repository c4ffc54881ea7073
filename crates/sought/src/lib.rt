// What is done with a state that was sought: it is saved, or the frames from there on are left to play; or its refusal is told.
#![tactic(auto)]

ghost use Rattle.std.specs.Prelude.{◌≡◌, [], ◌≤◌, length};
ghost use Rattle.seek.specs.Seek as Seek;
ghost use Rattle.replies.specs.Replies as Replies;
ghost use Rattle.replies.specs.Promised as Promised;

use replies::{Cue, Obeyed};
use slots::Slot;
use state::State;

// A state is saved, or the number is told that what was looked for is refused with: any, and 0, which refuses nothing, saves the all-zero state.
pub fn keep(
    s: Result<State, u8>,
    mut slots: [Slot; 16],
    images: &mut [u8],
    k: u32,
    room: &mut [u8],
) -> Obeyed
    requires { 64 ≤ length room.old }
    ensures quiet { Promised.Quiet (Replies.save_left (Promised.shelf slots images.old) k (Seek.numbered s)).slots (Replies.save_said (Promised.shelf slots images.old) k (Seek.numbered s)) room.old result room.new }
    ensures images_after { images.new ≡ (Replies.save_left (Promised.shelf slots images.old) k (Seek.numbered s)).images }
{
    let state = match s {
        Ok(state) => state,
        Err(number) => {
            if number != 0 {
                return Obeyed {
                    slots,
                    cue: replies::silence(),
                    n: replies::put_answer(number, b"saved ", 0, room),
                };
            }
            state::all_zero()
        }
    };
    let answer = shelf::save(&mut slots, images, state, k);
    Obeyed {
        slots,
        cue: replies::silence(),
        n: replies::put_result(answer, b"saved ", room),
    }
}

// `play K N`, of what was found: the frames are left to play; or the number that it is refused with, as above.
pub fn begin_play(
    s: Result<State, u8>,
    slots: [Slot; 16],
    recording: &[u8],
    k: u32,
    n: u32,
    room: &mut [u8],
) -> Obeyed
    requires { 64 ≤ length room.old }
    ensures { Promised.Cues slots recording.now (Promised.cued recording.now (Seek.numbered s) k n) (Replies.answered (Seek.numbered s).number []) room.old result room.new }
{
    let state = match s {
        Ok(state) => state,
        Err(number) => {
            if number != 0 {
                return Obeyed {
                    slots,
                    cue: replies::silence(),
                    n: replies::put_answer(number, b"frame ", 0, room),
                };
            }
            state::all_zero()
        }
    };
    Obeyed {
        slots,
        cue: Cue {
            state,
            place: places::place_of(recording, k),
            left: n,
        },
        n: 0,
    }
}
