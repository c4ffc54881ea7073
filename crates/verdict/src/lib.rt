// A line of another decoder's beside ours: what is held of it, the forms of a line, and what differs first between the two.
#![tactic(auto)]

ghost use Rattle.std.specs.Prelude.{◌≡◌, true, ◌&&◌, ◌≤◌, ◌<◌, min, length};
ghost use Rattle.sequence.specs.All.{all};
ghost use Rattle.stream.specs.Lines.{pieces};
ghost use Rattle.stream.specs.Machine.{fed_all};
ghost use Rattle.hex_lines.specs.Text as Text;
ghost use Rattle.verdict.specs.Verdict as Verdict;
ghost use Rattle.verdict.specs.Kept as Kept;
ghost use Rattle.verdict.specs.Round as Round;

// The place of the first newline, or the end.
pub fn line_end(text: &[u8]) -> usize
    ensures value { result ≡ length (pieces text.now).first }
    ensures upper_bound { result ≤ length text.now }
{
    text.iter().position(|b| *b == b'\n').unwrap_or(text.len())
}

// How much of a chunk goes up to its first newline, the newline too.
#[tactic(auto, unfolding(crate::specs::Round::up_to))]
pub fn up_to(chunk: &[u8]) -> usize
    ensures value { result ≡ Round.up_to chunk.now }
    ensures upper_bound { result ≤ length chunk.now }
{
    let k = line_end(chunk);
    if k < chunk.len() { k + 1 } else { k }
}

#[tactic(auto, unfolding(crate::specs::Verdict::is_decimal))]
fn is_decimal(b: u8) -> bool
    ensures { result ≡ Verdict.is_decimal b }
{
    b.is_ascii_digit()
}

// A byte more of their line. Behind the last place only a byte that is no decimal digit is kept, in that place: it tells that the line is no refusal.
#[tactic(auto, unfolding(crate::specs::Kept::pushed, stream::specs::Held::push_count))]
fn push(held: &mut [u8], n: usize, b: u8) -> usize
    requires { length held.old ≡ 1283 }
    ensures count { result ≡ (Kept.pushed (Kept.kept held.old n) b).n }
    ensures text { held.new ≡ (Kept.pushed (Kept.kept held.old n) b).held }
{
    if n < 1283 {
        held[n] = b;
        return n + 1;
    }
    if !is_decimal(b) {
        held[1282] = b;
    }
    1284
}

// The bytes of a part more, and how many there are then, counted to 1,284.
pub fn push_all(held: &mut [u8], start: usize, part: &[u8]) -> usize
    requires { length held.old ≡ 1283 }
    ensures count { result ≡ (fed_all Kept.pushed (Kept.kept held.old start) part.now).n }
    ensures text { held.new ≡ (fed_all Kept.pushed (Kept.kept held.old start) part.now).held }
{
    let mut n = start;
    for b in part {
        n = push(held, n, *b);
    }
    n
}

fn decimals(text: &[u8]) -> bool
    ensures { result ≡ all Verdict.is_decimal text.now }
{
    text.iter().all(|b| is_decimal(*b))
}

#[tactic(auto, unfolding(hex_lines::specs::Text::is_digit))]
fn digits(text: &[u8]) -> bool
    ensures { result ≡ all Text.is_digit text.now }
{
    text.iter().all(|b| hex_lines::value(*b) < 16)
}

#[tactic(auto, unfolding(crate::specs::Verdict::is_refusal))]
fn is_refusal(text: &[u8]) -> bool
    ensures { result ≡ Verdict.is_refusal text.now }
{
    text.strip_prefix(b"refused ")
        .is_some_and(|number| !number.is_empty() && decimals(number))
}

#[tactic(auto, unfolding(crate::specs::Verdict::is_frame))]
fn is_frame(text: &[u8]) -> bool
    ensures frame { result ≡ Verdict.is_frame text.now }
    ensures long { result ≡ true → length text.now ≡ 1282 }
{
    text.len() == 1282 && is_decimal(text[0]) && text[1] == b' ' && digits(&text[2..])
}

#[tactic(auto, unfolding(crate::specs::Verdict::known))]
pub fn known(text: &[u8]) -> bool
    ensures { result ≡ Verdict.known text.now }
{
    is_frame(text) || is_refusal(text)
}

pub fn both_frames(a: &[u8], b: &[u8]) -> bool
    ensures frames { result ≡ Verdict.is_frame a.now && Verdict.is_frame b.now }
    ensures long { result ≡ true → (length a.now ≡ 1282) × (length b.now ≡ 1282) }
{
    is_frame(a) && is_frame(b)
}

#[tactic(auto, unfolding(crate::specs::Verdict::digits_at))]
fn same_digits(ours: &[u8], theirs: &[u8], p: usize) -> bool
    requires fact_1 { length ours.now ≡ 1282 }
    requires fact_2 { length theirs.now ≡ 1282 }
    requires fact_3 { p < 320 }
    ensures { result ≡ Verdict.same (Verdict.digits_at ours.now p) (Verdict.digits_at theirs.now p) }
{
    let from = 2 + 4 * p;
    let to = from + 4;
    ours[from..to] == theirs[from..to]
}

// The lowest place whose digits differ; the last where none before it does.
pub fn place(ours: &[u8], theirs: &[u8]) -> usize
    requires fact_1 { length ours.now ≡ 1282 }
    requires fact_2 { length theirs.now ≡ 1282 }
    ensures place { result ≡ Verdict.place ours.now theirs.now }
    ensures within { result < 320 }
{
    (0..319)
        .find(|p| !same_digits(ours, theirs, *p))
        .unwrap_or(319)
}

// The number that the digits of a place spell.
#[tactic(auto, unfolding(crate::specs::Verdict::spelled))]
pub fn spelled(text: &[u8], p: usize) -> u32
    requires fact_1 { length text.now ≡ 1282 }
    requires fact_2 { p < 320 }
    ensures { result ≡ Verdict.spelled text.now p }
{
    let at = 2 + 4 * p;
    let a = u32::from(hex_lines::value(text[at]));
    let b = u32::from(hex_lines::value(text[at + 1]));
    let c = u32::from(hex_lines::value(text[at + 2]));
    let d = u32::from(hex_lines::value(text[at + 3]));
    4096 * a + 256 * b + 16 * c + d
}

// Whether a line of ours is theirs, of which all is held or only the beginning.
pub fn agrees(ours: &[u8], theirs: &[u8], whole: bool) -> bool
    ensures { result ≡ whole && Verdict.same ours.now theirs.now }
{
    whole && ours == theirs
}

// The next line's number. It stays at the last one that a u64 holds.
#[tactic(auto, unfolding(crate::specs::Verdict::next))]
pub fn next(number: u64) -> u64
    ensures { result ≡ Verdict.next number }
{
    number.saturating_add(1)
}

// How much of their line is held.
pub fn least(n: usize) -> usize
    ensures { result ≡ min n 1283 }
{
    n.min(1283)
}
