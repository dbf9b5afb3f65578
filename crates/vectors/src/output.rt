// Standard output, collected in a buffer that is written out when it is full. The buffer is a fixed one, as std's stands on the heap.
ghost use Rattle.std.specs.Prelude.{◌≤◌};

use std::io;
use std::io::{Stdout, Write};

// The first `used` bytes wait.
#[derive(Drop)]
pub(crate) struct Output {
    to: Stdout,
    bytes: [u8; 65536],
    used: usize,
    ghost room: { used ≤ 65536 },
}

impl Output {
    pub(crate) fn new(to: Stdout) -> Self {
        Output {
            to,
            bytes: [0; 65536],
            used: 0,
        }
    }
}

impl Write for Output {
    fn write(&mut self, s: &[u8]) -> io::Result<usize> {
        if self.used == self.bytes.len() {
            self.flush()?;
        }
        let used = self.used;
        let n = s.len().min(self.bytes.len() - used);
        self.bytes[used..used + n].copy_from_slice(&s[..n]);
        self.used = used + n;
        Ok(n)
    }

    fn flush(&mut self) -> io::Result<()> {
        let used = self.used;
        self.used = 0;
        self.to.write_all(&self.bytes[..used])
    }
}
