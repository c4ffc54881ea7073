// The player's commands, a line each: `save K`, `hold S`, `let go S`, `seek K`, `play K N`.
#![tactic(auto)]

ghost use Rattle.std.specs.Prelude.{◌≡◌, ◌≤◌};
ghost use Rattle.io.specs.Counts.{IsPrefixLen};
ghost use Rattle.hex_lines.specs.Held as Held;
ghost use Rattle.commands.specs.Commands as Commands;

use hex_lines::Line;

// Stands for no number: one more than the largest, as `Commands.number` says it.
const NONE: u64 = 4294967296;

// A command and its numbers.
#[derive(Clone, Copy)]
pub enum Command {
    Save(u32),
    Hold(u32),
    LetGo(u32),
    Seek(u32),
    Play(u32, u32),
    Unknown,
}

// A digit more.
fn more(v: u64, c: u8) -> u64
    requires { v ≤ Commands.NONE }
    ensures { (result ≡ Commands.more v c) × (result ≤ Commands.NONE) }
{
    if c < 48 {
        return NONE;
    }
    if 57 < c {
        return NONE;
    }
    let m = 10 * v + u64::from(c - 48);
    if m < NONE { m } else { NONE }
}

// The number that digits say.
fn number(text: &[u8]) -> u64
    ensures { (result ≡ Commands.number text.now) × (result ≤ Commands.NONE) }
{
    if text.len() == 0 {
        return NONE;
    }
    let mut v = 0;
    for c in text {
        v = more(v, *c);
    }
    v
}

// Whether a line begins with a name.
fn starts(line: &[u8], name: &[u8]) -> bool
    ensures { result ≡ Commands.starts name.now line.now }
{
    line.starts_with(name)
}

// The one number behind a name.
fn argument(line: &[u8], name: &[u8]) -> u64
    ensures { (result ≡ Commands.argument name.now line.now) × (result ≤ Commands.NONE) }
{
    if starts(line, name) {
        let a = name.len();
        return number(&line[a..]);
    }
    NONE
}

// The first blank, or the end.
fn blank(text: &[u8]) -> usize
    ensures { (result ≡ Commands.blank text.now) × IsPrefixLen result text.now }
{
    text.iter().position(|c| *c == b' ').unwrap_or(text.len())
}

// Two numbers with a blank between them.
fn playing(text: &[u8]) -> Command
    ensures { Commands.told result ≡ Commands.playing text.now }
{
    let b = blank(text);
    if text.len() <= b {
        return Command::Unknown;
    }
    let a = b + 1;
    let k = number(&text[..b]);
    let n = number(&text[a..]);
    if k == NONE {
        return Command::Unknown;
    }
    if n == NONE {
        return Command::Unknown;
    }
    Command::Play(k as u32, n as u32)
}

// What a line says.
fn parse(line: &[u8]) -> Command
    ensures { Commands.told result ≡ Commands.command line.now }
{
    let s = argument(line, b"save ");
    if s < NONE {
        return Command::Save(s as u32);
    }
    let h = argument(line, b"hold ");
    if h < NONE {
        return Command::Hold(h as u32);
    }
    let g = argument(line, b"let go ");
    if g < NONE {
        return Command::LetGo(g as u32);
    }
    let k = argument(line, b"seek ");
    if k < NONE {
        return Command::Seek(k as u32);
    }
    if starts(line, b"play ") {
        return playing(&line[5..]);
    }
    Command::Unknown
}

// The command that is held of a line.
pub fn read(line: Line) -> Command
    ensures { Commands.told result ≡ Commands.command (Held.held_line line) }
{
    if 40 < line.n {
        return Command::Unknown;
    }
    let text = line.text;
    let n = line.n;
    parse(&text[..n])
}
