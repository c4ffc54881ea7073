// An input that is read a chunk at a time, and used bit by bit.
#![tactic(auto)]

ghost use Rattle.std.specs.Prelude.{◌≡◌, true, ◌+◌, ◌-◌, ◌<◌, ◌≤◌, ◌⊎◌, take, drop, OnOk};

use std::io::{Error, Read};

// What is unread of the chunk lies from one place to another; and whether the input is at its end.
#[derive(Drop)]
pub struct Input {
    pub chunk: [u8; 4096],
    pub at: usize,
    pub to: usize,
    pub over: bool,
    ghost in_chunk: { (at ≤ to) × (to ≤ 4096) },
}

impl Input {
    // Before the first read.
    pub fn new() -> Input
        ensures { result.at ≡ result.to }
    {
        Input {
            chunk: [0; 4096],
            at: 0,
            to: 0,
            over: false,
        }
    }

    // The next bytes, where none are left and the input is not at its end.
    pub fn refill<R: Read>(&mut self, from: &mut R) -> Result<(), Error>
        ensures kept { self.old.at < self.old.to → self.new ≡ self.old }
        ensures full { OnOk result ((self.new.at < self.new.to) ⊎ (self.new.over ≡ true)) }
    {
        if self.at < self.to || self.over {
            return Ok(());
        }
        let n = pipe::read_from(from, &mut self.chunk)?;
        self.at = 0;
        self.to = n;
        self.over = n == 0;
        Ok(())
    }

    pub fn unread(&self) -> &[u8]
        ensures { result.now ≡ take (self.now.to - self.now.at) (drop self.now.at self.now.chunk) }
    {
        &self.chunk[self.at..self.to]
    }

    // So many bytes more of what is unread are used. All else stays, the bytes that were read among it.
    pub fn use_up(&mut self, n: usize)
        requires { self.old.at + n ≤ self.old.to }
        ensures at { self.new.at ≡ self.old.at + n }
        ensures to { self.new.to ≡ self.old.to }
        ensures chunk { self.new.chunk ≡ self.old.chunk }
        ensures over { self.new.over ≡ self.old.over }
    {
        self.at += n;
    }
}
