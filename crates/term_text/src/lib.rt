// The term report's text: a figure a line.
#![tactic(auto)]

ghost use Rattle.std.specs.Prelude.{◌≡◌, ◌+◌, ◌*◌, ◌≤◌, length};
ghost use Rattle.io.specs.Counts.{IsPrefixLen};
ghost use Rattle.stream.specs.Room.{over};
ghost use Rattle.writer.specs.Wrote.{Wrote};
ghost use Rattle.term_text.specs.Report as Report;

use tally::{Clippings, Subframes, Tally};
use writer::Writer;

// A line of a name and two numbers.
fn put_row(out: &mut Writer, name: &[u8], k: u64, value: u64)
    requires { out.old.n + length name.now + 42 ≤ length out.old.room.now }
    ensures wrote { Wrote out.old out.new (Report.row name.now k value) }
    ensures fits { out.new.n ≤ out.old.n + length name.now + 42 }
{
    out.put(name);
    out.put_decimal(k);
    out.put_figure(b" ", value);
}

// A row for each count, the first being that of number from.
fn put_rows(out: &mut Writer, name: &[u8], from: u64, counts: &[u64])
    requires name { length name.now ≤ 11 }
    requires counts { from + length counts.now ≤ 1000 }
    requires room { out.old.n + 53 * length counts.now ≤ length out.old.room.now }
    ensures wrote { Wrote out.old out.new (Report.rows name.now from counts.now) }
    ensures fits { out.new.n ≤ out.old.n + 53 * length counts.now }
{
    for (i, count) in counts.iter().enumerate() {
        put_row(out, name, from + i as u64, *count);
    }
}

fn put_numbers(out: &mut Writer, tally: Tally)
    requires { out.old.n + 123 ≤ length out.old.room.now }
    ensures wrote { Wrote out.old out.new (Report.number_lines tally) }
    ensures fits { out.new.n ≤ out.old.n + 123 }
{
    out.put_figure(b"accepted ", tally.accepted);
    out.put_figure(b"refused 6 ", tally.refused_6);
    out.put_figure(b"refused 7 ", tally.refused_7);
    out.put_figure(b"refused 9 ", tally.refused_9);
}

fn put_gains(out: &mut Writer, s: Subframes)
    requires { out.old.n + 79 ≤ length out.old.room.now }
    ensures wrote { Wrote out.old out.new (Report.gain_lines s) }
    ensures fits { out.new.n ≤ out.old.n + 79 }
{
    out.put_figure(b"largest code gain ", s.largest);
    out.put_figure(b"smallest code gain ", s.smallest);
}

fn put_clipped(out: &mut Writer, c: Clippings)
    requires { out.old.n + 151 ≤ length out.old.room.now }
    ensures wrote { Wrote out.old out.new (Report.clipped_lines c) }
    ensures fits { out.new.n ≤ out.old.n + 151 }
{
    out.put_figure(b"clipped prediction ", c.prediction);
    out.put_figure(b"clipped mixing ", c.mixing);
    out.put_figure(b"clipped synthesis ", c.synthesis);
    out.put_figure(b"clipped output ", c.output);
}

fn put_last(out: &mut Writer, s: Subframes, c: Clippings)
    requires { out.old.n + 230 ≤ length out.old.room.now }
    ensures wrote { Wrote out.old out.new (Report.last_lines s c) }
    ensures fits { out.new.n ≤ out.old.n + 230 }
{
    put_clipped(out, c);
    put_gains(out, s);
}

fn put_subframes(out: &mut Writer, s: Subframes, c: Clippings)
    requires { out.old.n + 14010 ≤ length out.old.room.now }
    ensures wrote { Wrote out.old out.new (Report.subframe_lines s c) }
    ensures fits { out.new.n ≤ out.old.n + 14010 }
{
    put_rows(out, b"class ", 0, &s.classes);
    put_rows(out, b"lag ", 19, &s.lags);
    put_rows(out, b"gain index ", 0, &s.gain_indexes);
    put_last(out, s, c);
}

// All of the report.
fn put_all(out: &mut Writer, tally: Tally)
    requires { out.old.n + 14200 ≤ length out.old.room.now }
    ensures wrote { Wrote out.old out.new (Report.report tally) }
    ensures fits { out.new.n ≤ out.old.n + 14200 }
{
    put_numbers(out, tally);
    put_subframes(out, tally.subframes, tally.clipped);
    if !tally::full(tally) {
        return;
    }
    out.put(b"stopped at 4294967295 lines\n");
}

// The report, over the beginning of room. The answer is its length.
pub fn put_report(tally: Tally, room: &mut [u8]) -> usize
    requires { 16384 ≤ length room.old }
    ensures length { result ≡ length (Report.report tally) }
    ensures text { room.new ≡ over (Report.report tally) room.old }
    ensures fits { IsPrefixLen result room.new }
{
    let mut out = Writer { room, n: 0 };
    put_all(&mut out, tally);
    out.n
}
