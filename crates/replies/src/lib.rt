// What a command of the player is answered: its text, the records of the shelf after it, and what it leaves to play.
#![tactic(auto)]

ghost use Rattle.std.specs.Prelude.{◌≡◌, ◌≤◌, length};
ghost use Rattle.stream.specs.Decimal.{figure};
ghost use Rattle.shelf.specs.Shelf as Shelf;
ghost use Rattle.shelf.specs.Shelf.{number, slots_after};
ghost use Rattle.seek.specs.Seek as Seek;
ghost use Rattle.replies.specs.Replies as Replies;
ghost use Rattle.replies.specs.Promised as Promised;

use refusal::Refusal;
use slots::Slot;
use state::State;

// What is left to play: the state before the next frame, the place of its line in the recording, and how many frames are asked for.
#[derive(Clone, Copy)]
pub struct Cue {
    pub state: State,
    pub place: usize,
    pub left: u32,
}

// What a command leaves: the records and what is to be played, and how long its text is.
#[derive(Clone, Copy)]
pub struct Obeyed {
    pub slots: [Slot; 16],
    pub cue: Cue,
    pub n: usize,
}

// Nothing to play.
pub fn silence() -> Cue
    ensures { result ≡ Promised.silence }
{
    Cue {
        state: state::all_zero(),
        place: 0,
        left: 0,
    }
}

// `refused N`
pub fn put_refused(why: Refusal, room: &mut [u8]) -> usize
    requires { 64 ≤ length room.old }
    ensures { Promised.Put (Replies.refused why) room.old result room.new }
{
    stream::put_figure(b"refused ", u64::from(why.number()), 0, room)
}

// `refused N`, or where nothing is refused a line of a name and a number.
// A number and no Refusal: it takes any, and a narrower type would ask more of its callers.
pub fn put_answer(number: u8, name: &[u8], value: u32, room: &mut [u8]) -> usize
    requires fact_1 { length name.now ≤ 8 }
    requires fact_2 { 64 ≤ length room.old }
    ensures { Promised.Put (Replies.answered number (figure name.now value)) room.old result room.new }
{
    if number != 0 {
        return stream::put_figure(b"refused ", u64::from(number), 0, room);
    }
    stream::put_figure(name, u64::from(value), 0, room)
}

// The same of a function's answer.
pub fn put_result(answer: Result<u32, Refusal>, name: &[u8], room: &mut [u8]) -> usize
    requires name_fits { length name.now ≤ 8 }
    requires room_fits { 64 ≤ length room.old }
    ensures { Promised.Put (Replies.answer_line name.now answer) room.old result room.new }
{
    match answer {
        Ok(value) => stream::put_figure(name, u64::from(value), 0, room),
        Err(why) => put_refused(why, room),
    }
}

// `frame K mark M`
fn put_frame_mark(k: u32, mark: u8, room: &mut [u8]) -> usize
    requires { 64 ≤ length room.old }
    ensures { Promised.Put (Replies.frame_mark k mark) room.old result room.new }
{
    let a = stream::put_at(b"frame ", 0, room);
    let b = stream::put_decimal(u64::from(k), a, room);
    stream::put_figure(b" mark ", u64::from(mark), b, room)
}

// `hold S`
pub fn hold(mut slots: [Slot; 16], images: &[u8], k: u32, room: &mut [u8]) -> Obeyed
    requires { 64 ≤ length room.old }
    ensures { Promised.Quiet (slots_after (Shelf.hold slots (length images.now) k) slots) (Replies.answered (number (Shelf.hold slots (length images.now) k)) (figure Replies.held_word k)) room.old result room.new }
{
    let answer = shelf::hold(&mut slots, images, k);
    Obeyed {
        slots,
        cue: silence(),
        n: put_result(answer.map(|()| k), b"held ", room),
    }
}

// `let go S`
pub fn let_go(mut slots: [Slot; 16], images: &[u8], k: u32, room: &mut [u8]) -> Obeyed
    requires { 64 ≤ length room.old }
    ensures { Promised.Quiet (slots_after (Shelf.let_go slots (length images.now) k) slots) (Replies.answered (number (Shelf.let_go slots (length images.now) k)) (figure Replies.let_go_word k)) room.old result room.new }
{
    let answer = shelf::let_go(&mut slots, images, k);
    Obeyed {
        slots,
        cue: silence(),
        n: put_result(answer.map(|()| k), b"let go ", room),
    }
}

// `seek K`, of what was found, or the number that it is refused with: any, and of 0, which refuses nothing, the all-zero state's mark.
pub fn tell(s: Result<State, u8>, slots: [Slot; 16], k: u32, room: &mut [u8]) -> Obeyed
    requires { 64 ≤ length room.old }
    ensures { Promised.Quiet slots (Replies.answered (Seek.numbered s).number (Replies.frame_mark k (Seek.numbered s).state.mark)) room.old result room.new }
{
    Obeyed {
        slots,
        cue: silence(),
        n: match s {
            Ok(state) => put_frame_mark(k, state.mark, room),
            Err(number) => {
                if number == 0 {
                    put_frame_mark(k, 0, room)
                } else {
                    put_answer(number, b"frame ", 0, room)
                }
            }
        },
    }
}

// A command that is none.
pub fn wonder(slots: [Slot; 16], room: &mut [u8]) -> Obeyed
    requires { 64 ≤ length room.old }
    ensures { Promised.Quiet slots Replies.unknown_line room.old result room.new }
{
    stream::put(b"unknown\n", room);
    Obeyed {
        slots,
        cue: silence(),
        n: 8,
    }
}
