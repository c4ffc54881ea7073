// Text put into a lent room, a piece behind the other.
#![tactic(auto)]

ghost use Rattle.std.specs.Prelude.{◌≡◌, ◌+◌, ◌≤◌, length};
ghost use Rattle.stream.specs.Decimal.{decimal, figure};

// A lent room, and how many bytes of it are written.
#[derive(Drop)]
pub struct Writer<'a> {
    pub room: &'a mut [u8],
    pub n: usize,
}

impl<'a> Writer<'a> {
    ghost use Rattle.writer.specs.Wrote.{Wrote};

    // A text.
    #[tactic(auto, using(crate::specs::Wrote::wrote))]
    pub fn put(&mut self, text: &[u8])
        requires { self.old.n + length text.now ≤ length self.old.room.now }
        ensures { Wrote self.old self.new text.now }
    {
        self.n = stream::put_at(text, self.n, self.room);
    }

    // A number in decimal.
    #[tactic(auto, using(crate::specs::Wrote::wrote, stream::specs::Decimal::decimal_long))]
    pub fn put_decimal(&mut self, value: u64)
        requires { self.old.n + 20 ≤ length self.old.room.now }
        ensures wrote { Wrote self.old self.new (decimal value) }
        ensures fits { self.new.n ≤ self.old.n + 20 }
    {
        self.n = stream::put_decimal(value, self.n, self.room);
    }

    // A line of a name and a number.
    pub fn put_figure(&mut self, name: &[u8], value: u64)
        requires { self.old.n + length name.now + 21 ≤ length self.old.room.now }
        ensures wrote { Wrote self.old self.new (figure name.now value) }
        ensures fits { self.new.n ≤ self.old.n + length name.now + 21 }
    {
        self.put(name);
        self.put_decimal(value);
        self.put(b"\n");
    }
}
