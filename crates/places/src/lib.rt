// Where a frame's line stands in a recording that is lent whole, and a line as it is held.
#![tactic(auto)]

ghost use Rattle.std.specs.Prelude.{◌≡◌, ◌+◌, ◌≤◌, min, ltb, length, drop};
ghost use Rattle.hex_lines.specs.Held as Held;
ghost use Rattle.places.specs.Frames as Frames;
ghost use Rattle.places.specs.Places as Places;

use hex_lines::Line;

// Where the line that begins at place a ends: at its newline, or at the end of the recording.
pub fn line_end(recording: &[u8], a: usize) -> usize
    requires { a ≤ length recording.now }
    ensures end { result ≡ a + Places.line_end (drop a recording.now) }
    ensures within { result ≤ length recording.now }
{
    let rest = &recording[a..];
    a + rest.iter().position(|b| *b == b'\n').unwrap_or(rest.len())
}

// The place behind a line that ends at e.
pub fn behind(recording: &[u8], e: usize) -> usize
    requires { e ≤ length recording.now }
    ensures { result ≡ min (e + 1) (length recording.now) }
{
    (e + 1).min(recording.len())
}

// Where the frames begin: behind a first `+`.
pub fn start_of(recording: &[u8]) -> usize
    ensures { result ≡ Places.start_of recording.now }
{
    let e = line_end(recording, 0);
    if e != 1 || recording[0] != b'+' {
        return 0;
    }
    behind(recording, e)
}

// The place of the line of frame k, or the end of the recording where there is none.
pub fn place_of(recording: &[u8], k: u32) -> usize
    ensures { Places.At recording.now result k }
{
    let mut a = start_of(recording);
    for n in 0..k {
        if recording.len() <= a {
            return a;
        }
        a = behind(recording, line_end(recording, a));
    }
    a
}

// Whether the recording has a frame k.
pub fn has_frame(recording: &[u8], k: u32) -> bool
    ensures { result ≡ ltb k (length (Frames.frames recording.now)) }
{
    place_of(recording, k) < recording.len()
}

// A line as it is held.
pub fn held(line: &[u8]) -> Line
    ensures { result ≡ Held.kept line.now }
{
    let mut l = hex_lines::empty();
    for &b in line {
        l = hex_lines::push(l, b);
    }
    l
}
