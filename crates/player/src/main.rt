// The player: a recording is entered at any frame. Commands come in on standard input, a line each: read, playback's call, write.
#![tactic(auto)]

ghost use Rattle.std.specs.Prelude.{◌≡◌, false, true, ◌+◌, ◌≤◌, length, IfOk, IfErr};
ghost use Rattle.io.specs.Counts.{IsPrefixLen};
ghost use Rattle.heard.specs.Start as Start;
ghost use Rattle.playback.specs.declared.Player.{Player as APlayer};
ghost use Rattle.playback.specs.Turns as Turns;

use input::Input;
use pipe::Stopped;
use playback::Player;
use turns::Told;

const PROGRAM: &[u8] = b"player";

// A turn, and its text: what it leaves, and how long the text was. What was read stays as it was read.
fn take_turn(
    rt: &HostRuntime,
    words: &[i16],
    file: &[u8],
    player: Player,
    input: &mut Input,
    images: &mut [u8],
    recording: &[u8],
) -> Result<(Player, usize), Told>
    requires { Start.Tables words.now file.now }
    ensures sent { IfOk result (λ r. Turns.Sent recording.now (Turns.turn_of file.now recording.now input.old.chunk player images.old input.old.at input.old.to) input.old.at r.0 images.new input.new.at r.1 false) }
    ensures failed { IfErr result (λ e. (next : APlayer) × Turns.Sent recording.now (Turns.turn_of file.now recording.now input.old.chunk player images.old input.old.at input.old.to) input.old.at next images.new input.new.at 0 true) }
    ensures unread { (input.new.chunk ≡ input.old.chunk) × (input.new.to ≡ input.old.to) }
{
    let mut room = [0u8; 1283];
    let t = playback::turn(
        words,
        file,
        player,
        images,
        recording,
        input.unread(),
        &mut room,
    );
    input.use_up(t.used);
    let sent = turns::write(rt, PROGRAM, &room[..t.n])?;
    Ok((t.player, sent))
}

// Each turn plays a frame, uses a byte or more, or is at the end. Input is asked for where none is left and no frame is played. The player is kept beside the
// turns: one that goes from turn to turn is copied several times in each.
fn play(rt: &HostRuntime, words: &[i16], file: &[u8], recording: &[u8]) -> Result<(), Told>
    requires { Start.Tables words.now file.now }
{
    let mut images = [0u8; 8416];
    let mut input = Input::new();
    let mut player = playback::start();
    turns::take_turns(
        rt,
        PROGRAM,
        b"turns",
        (),
        |()|
            requires { Start.Tables words.now file.now }
        {
            if !playback::playing(recording, player.cue) {
                let mut from = rt.stdin();
                input
                    .refill(&mut from)
                    .map_err(|why| turns::tell(rt, PROGRAM, b": cannot read", why))?;
            }
            let (next, _) = take_turn(rt, words, file, player, &mut input, &mut images, recording)?;
            player = next;
            Ok(turns::after(!player.told, ()))
        },
    )
}

// A byte more than a table file has tells one that is too long.
fn open(rt: &HostRuntime, recording: &[u8]) -> Result<(), Told> {
    let mut file = [0u8; 15835];
    let mut words = [0i16; 5963];
    let mut room = [0u8; 40];
    let n = turns::read_tables(rt, PROGRAM, &mut file)?;
    let start = heard::begin(&file[..n], &mut words, &mut room);
    turns::write(rt, PROGRAM, &room[..start.n])?;
    if start.number == 0 {
        play(rt, &words, &file[..n], recording)?;
    }
    Ok(())
}

// The recording's bytes into an array that stands elsewhere: where it is made its four million zeros are known, and would be counted one by one.
fn fill(rt: &HostRuntime, name: &[u8], room: &mut [u8; 4194305]) -> Result<usize, Stopped>
    ensures whole { IfOk result (λ n. IsPrefixLen n room.new) }
    ensures stopped { IfErr result (λ e. IsPrefixLen e.n room.new) }
{
    pipe::read_file(rt, name, room)
}

// The recording whose name is the argument. A byte more than its room has tells one that is too long.
fn read(rt: &HostRuntime, name: &[u8]) -> Result<(), Told> {
    let no_recording = |why| turns::tell(rt, name, b"", why);
    pipe::open(rt, name).map_err(no_recording)?;
    let mut room = [0u8; 4194305];
    let n = fill(rt, name, &mut room).map_err(|e| no_recording(e.why))?;
    if n > 4194304 {
        let _ = pipe::write_error(rt, b"player: the recording is longer than 4194304 bytes\n");
        return Err(Told);
    }
    open(rt, &room[..n])
}

fn begin(rt: &HostRuntime) -> Result<(), Told> {
    let mut name = io::buffer();
    let n = pipe::argument(rt, 1, &mut name).map_err(|why| turns::tell(
        rt,
        PROGRAM,
        b": the recording's name",
        why,
    ))?;
    read(rt, &name[..n])
}

// What failed is told.
fn main(rt: HostRuntime) {
    let _ = begin(&rt);
}
