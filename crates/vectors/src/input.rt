// Standard input, read in blocks. The buffer is a fixed one, as std's readers of lines stand on the heap.
ghost use Rattle.std.specs.Prelude.{◌≤◌, ◌≡◌, length};

use std::io::{Read, Stdin};

// The first `held` bytes are read and not yet passed.
#[derive(Drop)]
pub(crate) struct Input {
    from: Stdin,
    bytes: [u8; 65536],
    held: usize,
    ghost room: { held ≤ 65536 },
}

impl Input {
    pub(crate) fn new(from: Stdin) -> Self {
        Input {
            from,
            bytes: [0; 65536],
            held: 0,
        }
    }

    pub(crate) fn bytes(&self) -> &[u8]
        ensures { length result.now ≡ self.now.held }
    {
        &self.bytes[..self.held]
    }

    // Reads more behind what is held, and says whether there is anything new; a read that fails is the end too. A last line that lacks its
    // newline gets one; after a newline there is no further line. A line that fills the whole block is cut to a space, which begins no case
    // line: it will be malformed, and its bytes are dropped as they come.
    pub(crate) fn read_block(&mut self) -> bool {
        if self.held == self.bytes.len() {
            self.bytes[0] = b' ';
            self.held = 1;
        }
        let held = self.held;
        let bytes = &mut self.bytes[..];
        let got = self.from.read(&mut bytes[held..]).unwrap_or(0);
        if got > 0 {
            self.held = held + got;
            return true;
        }
        if held == 0 {
            return false;
        }
        self.bytes[held] = b'\n';
        self.held = held + 1;
        true
    }

    // Moves what follows the first n bytes to the front.
    pub(crate) fn pass(&mut self, n: usize)
        requires { n ≤ self.old.held }
    {
        let held = self.held;
        self.bytes.copy_within(n..held, 0);
        self.held = held - n;
    }
}
