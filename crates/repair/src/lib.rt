// A recording that came back damaged, mended line by line, and the list of what was changed. All of salvage's text.
#![tactic(auto)]

ghost use Rattle.std.specs.Prelude.{◌≡◌, true, ◌+◌, ◌≤◌, length};
ghost use Rattle.io.specs.Counts.{IsPrefixLen};
ghost use Rattle.stream.specs.Room.{over};
ghost use Rattle.stream.specs.Held.{push_text, push_count};
ghost use Rattle.stream.specs.Machine.{fed_all, written_all};
ghost use Rattle.repair.specs.Feed as Feed;

use mending::{Place, end_line};

// The same with the line that is coming in: how many bytes it has, counted to 4,097. The bytes stand in a lent buffer.
#[derive(Clone, Copy)]
pub struct Mender {
    pub place: Place,
    pub n: usize,
}

// What a chunk of the input leaves, and how long its two texts are.
#[derive(Clone, Copy)]
pub struct Fed {
    pub mender: Mender,
    pub repaired: usize,
    pub listed: usize,
}

// The start of a file.
#[tactic(auto, unfolding(crate::specs::Feed::begin))]
pub fn begin() -> Mender
    ensures { result ≡ Feed.begin }
{
    Mender {
        place: Place {
            number: 1,
            opens: true,
        },
        n: 0,
    }
}

// How much of what is held is looked at: a line that is too long is replaced, as an empty one is.
#[tactic(auto, unfolding(crate::specs::Feed::told_count))]
fn told(n: usize) -> usize
    ensures value { result ≡ Feed.told_count n }
    ensures upper_bound { result ≤ 4096 }
{
    if 4096 < n { 0 } else { n }
}

// A byte more of the line that is held.
#[tactic(auto, unfolding(stream::specs::Held::push_text, stream::specs::Held::push_count))]
fn push(held: &mut [u8], n: usize, b: u8) -> usize
    requires { length held.old ≡ 4096 }
    ensures count { result ≡ push_count 4096 n }
    ensures text { held.new ≡ push_text 4096 held.old n b }
{
    if n < 4096 {
        held[n] = b;
        return n + 1;
    }
    4097
}

// A chunk of the input: all its text goes over the beginnings of out and list.
fn feed(mender: Mender, held: &mut [u8], chunk: &[u8], out: &mut [u8], list: &mut [u8]) -> Fed
    requires fact_1 { length held.old ≡ 4096 }
    requires fact_2 { Feed.room_for (length chunk.now) ≤ length out.old }
    requires fact_3 { Feed.list_room_for (length chunk.now) ≤ length list.old }
    ensures fed { result ≡ Feed.fed_chunk (Feed.standing mender held.old) chunk.now }
    ensures held { held.new ≡ (fed_all Feed.fed (Feed.standing mender held.old) chunk.now).held }
    ensures text { out.new ≡ over (written_all Feed.fed Feed.written (Feed.standing mender held.old) chunk.now) out.old }
    ensures entries { list.new ≡ over (written_all Feed.fed Feed.entered (Feed.standing mender held.old) chunk.now) list.old }
    ensures fits { IsPrefixLen result.repaired out.new }
    ensures list { IsPrefixLen result.listed list.new }
{
    let mut place = mender.place;
    let mut n = mender.n;
    let mut repaired = 0;
    let mut listed = 0;
    for b in chunk {
        if *b != b'\n' {
            n = push(held, n, *b);
            continue;
        }
        let k = told(n);
        let e = end_line(
            place,
            &held[..k],
            true,
            &mut out[repaired..],
            &mut list[listed..],
        );
        place = e.place;
        repaired += e.repaired;
        listed += e.listed;
        n = 0;
    }
    Fed {
        mender: Mender { place, n },
        repaired,
        listed,
    }
}

// What one read gave, nothing being the end of the input: the texts that it gives go over the beginnings of out and list, and the line that is open stays in held.
pub fn answer(mender: Mender, held: &mut [u8], chunk: &[u8], out: &mut [u8], list: &mut [u8]) -> Fed
    requires fact_1 { length held.old ≡ 4096 }
    requires fact_2 { Feed.room_for (length chunk.now) ≤ length out.old }
    requires fact_3 { Feed.list_room_for (length chunk.now) ≤ length list.old }
    ensures fed { result ≡ Feed.answered (Feed.standing mender held.old) chunk.now }
    ensures held { held.new ≡ (fed_all Feed.fed (Feed.standing mender held.old) chunk.now).held }
    ensures text { out.new ≡ over (Feed.answered_text (Feed.standing mender held.old) chunk.now) out.old }
    ensures entries { list.new ≡ over (Feed.answered_list (Feed.standing mender held.old) chunk.now) list.old }
    ensures fits { IsPrefixLen result.repaired out.new }
    ensures list { IsPrefixLen result.listed list.new }
{
    if chunk.len() == 0 {
        let n = mender.n;
        if n == 0 {
            return Fed {
                mender,
                repaired: 0,
                listed: 0,
            };
        }
        let k = told(n);
        let e = end_line(mender.place, &held[..k], false, out, list);
        return Fed {
            mender,
            repaired: e.repaired,
            listed: e.listed,
        };
    }
    feed(mender, held, chunk, out, list)
}
