// What differs first between a line of another decoder's and ours, as text.
#![tactic(auto)]

ghost use Rattle.std.specs.Prelude.{◌≡◌, ◌+◌, ◌-◌, ◌≤◌, length};
ghost use Rattle.stream.specs.Room.{over};
ghost use Rattle.writer.specs.Wrote.{Wrote};
ghost use Rattle.verdict.specs.Verdict as Verdict;
ghost use Rattle.verdict.specs.Round as Round;

use writer::Writer;

// A blank and a number of 16 bits as a signed one.
fn put_signed(out: &mut Writer, v: u32)
    requires { out.old.n + 22 ≤ length out.old.room.now }
    ensures wrote { Wrote out.old out.new (Verdict.spaced v) }
    ensures fits { out.new.n ≤ out.old.n + 22 }
{
    if v < 32768 {
        out.put(b" ");
        out.put_decimal(u64::from(v));
        return;
    }
    out.put(b" -");
    out.put_decimal(u64::from(65536u32.saturating_sub(v)));
}

// `line N`
fn put_head(out: &mut Writer, number: u64)
    requires { out.old.n + 25 ≤ length out.old.room.now }
    ensures wrote { Wrote out.old out.new (Verdict.head number) }
    ensures fits { out.new.n ≤ out.old.n + 25 }
{
    out.put(b"line ");
    out.put_decimal(number);
}

fn put_says(out: &mut Writer, number: u64, words: &[u8])
    requires words { length words.now ≤ 32 }
    requires room { out.old.n + 58 ≤ length out.old.room.now }
    ensures wrote { Wrote out.old out.new (Verdict.says number words.now) }
    ensures fits { out.new.n ≤ out.old.n + 58 }
{
    put_head(out, number);
    out.put(words);
    out.put(b"\n");
}

// ` sample P`
fn put_place(out: &mut Writer, p: usize)
    requires { out.old.n + 28 ≤ length out.old.room.now }
    ensures wrote { Wrote out.old out.new (Verdict.sample_of p) }
    ensures fits { out.new.n ≤ out.old.n + 28 }
{
    out.put(b" sample ");
    out.put_decimal(p as u64);
}

fn put_sample(out: &mut Writer, number: u64, p: usize, ours: u32, theirs: u32)
    requires { out.old.n + 98 ≤ length out.old.room.now }
    ensures wrote { Wrote out.old out.new (Verdict.says number (Verdict.sample p ours theirs)) }
    ensures fits { out.new.n ≤ out.old.n + 98 }
{
    put_head(out, number);
    put_place(out, p);
    put_signed(out, ours);
    put_signed(out, theirs);
    out.put(b"\n");
}

// Of two frames the lowest place whose digits differ, with both samples.
fn put_lowest(out: &mut Writer, number: u64, ours: &[u8], theirs: &[u8])
    requires ours { length ours.now ≡ 1282 }
    requires theirs { length theirs.now ≡ 1282 }
    requires room { out.old.n + 98 ≤ length out.old.room.now }
    ensures wrote { Wrote out.old out.new (Verdict.says number (Verdict.sample_at ours.now theirs.now (Verdict.place ours.now theirs.now))) }
    ensures fits { out.new.n ≤ out.old.n + 98 }
{
    let p = verdict::place(ours, theirs);
    let a = verdict::spelled(ours, p);
    let b = verdict::spelled(theirs, p);
    put_sample(out, number, p, a, b);
}

// What differs first between a line of ours and another one of theirs.
#[tactic(auto, unfolding(verdict::specs::Verdict::difference, verdict::specs::Verdict::what))]
fn put_difference(out: &mut Writer, number: u64, ours: &[u8], theirs: &[u8])
    requires { out.old.n + 98 ≤ length out.old.room.now }
    ensures wrote { Wrote out.old out.new (Verdict.difference number ours.now theirs.now) }
    ensures fits { out.new.n ≤ out.old.n + 98 }
{
    if !verdict::known(theirs) {
        return put_says(out, number, b" refused 16");
    }
    if !verdict::both_frames(ours, theirs) {
        return put_says(out, number, b" refusal");
    }
    if ours[0] != theirs[0] {
        return put_says(out, number, b" mark");
    }
    put_lowest(out, number, ours, theirs);
}

// A line that we do not have.
#[tactic(auto, unfolding(verdict::specs::Verdict::added))]
fn put_added(out: &mut Writer, number: u64, theirs: &[u8])
    requires { out.old.n + 98 ≤ length out.old.room.now }
    ensures wrote { Wrote out.old out.new (Verdict.added number theirs.now) }
    ensures fits { out.new.n ≤ out.old.n + 98 }
{
    if verdict::known(theirs) {
        return put_says(out, number, b" extra");
    }
    put_says(out, number, b" refused 16");
}

// A line of theirs beside the text of ours, which is empty where we have none: nothing where they agree.
#[tactic(auto, using(writer::specs::Wrote::wrote_none), unfolding(verdict::specs::Round::round))]
fn put_judged(out: &mut Writer, number: u64, text: &[u8], theirs: &[u8], whole: bool)
    requires { out.old.n + 98 ≤ length out.old.room.now }
    ensures wrote { Wrote out.old out.new (Round.round number text.now theirs.now whole) }
    ensures fits { out.new.n ≤ out.old.n + 98 }
{
    if text.len() == 0 {
        return put_added(out, number, theirs);
    }
    let k = text.len() - 1;
    if verdict::agrees(&text[..k], theirs, whole) {
        return;
    }
    put_difference(out, number, &text[..k], theirs);
}

// What is told where they have no line more.
#[tactic(auto, unfolding(verdict::specs::Round::last))]
fn put_end(out: &mut Writer, number: u64, said: usize)
    requires { out.old.n + 98 ≤ length out.old.room.now }
    ensures wrote { Wrote out.old out.new (Round.last number said) }
    ensures fits { out.new.n ≤ out.old.n + 98 }
{
    if said == 0 {
        return out.put(b"agree\n");
    }
    put_says(out, number, b" missing");
}

// The same, over the beginning of room. The answer is its length.
pub fn put_round(number: u64, text: &[u8], theirs: &[u8], whole: bool, room: &mut [u8]) -> usize
    requires { 128 ≤ length room.old }
    ensures length { result ≡ length (Round.round number text.now theirs.now whole) }
    ensures text { room.new ≡ over (Round.round number text.now theirs.now whole) room.old }
{
    let mut out = Writer { room, n: 0 };
    put_judged(&mut out, number, text, theirs, whole);
    out.n
}

// What is told where they have no line more, over the beginning of room.
pub fn put_last(number: u64, said: usize, room: &mut [u8]) -> usize
    requires { 128 ≤ length room.old }
    ensures length { result ≡ length (Round.last number said) }
    ensures text { room.new ≡ over (Round.last number said) room.old }
{
    let mut out = Writer { room, n: 0 };
    put_end(&mut out, number, said);
    out.n
}
