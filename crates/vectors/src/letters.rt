// Text on its way to a formatter. Letters wait here and are handed on together: a call of the formatter for each byte or sample costs three
// times as much.
ghost use Rattle.std.specs.Prelude.{◌≡◌, ◌≤◌};

use std::{fmt, str};
use text::hex_char;
use value::{Kind, bytes_of};

// The first `used` letters wait.
#[derive(Drop)]
pub(crate) struct Letters<'f, W> {
    to: &'f mut fmt::Formatter<W>,
    bytes: [u8; 128],
    used: usize,
    ghost room: { used ≤ 128 },
}

impl<'f, W: fmt::Write> Letters<'f, W> {
    pub(crate) fn new(to: &'f mut fmt::Formatter<W>) -> Self {
        Letters {
            to,
            bytes: [0; 128],
            used: 0,
        }
    }

    pub(crate) fn put(&mut self, letter: u8) -> fmt::Result {
        if self.used == self.bytes.len() {
            self.hand_on()?;
        }
        let used = self.used;
        self.bytes[used] = letter;
        self.used = used + 1;
        Ok(())
    }

    pub(crate) fn put_all(&mut self, letters: &[u8]) -> fmt::Result {
        for letter in letters {
            self.put(*letter)?;
        }
        Ok(())
    }

    // Two hex digits a byte.
    pub(crate) fn put_hex(&mut self, bytes: &[u8]) -> fmt::Result {
        for b in bytes {
            self.put(hex_char(*b / 16))?;
            self.put(hex_char(*b))?;
        }
        Ok(())
    }

    // All hex digits of a kind.
    pub(crate) fn put_bits(&mut self, kind: Kind, bits: u64) -> fmt::Result {
        self.put_hex(&bits.to_be_bytes()[8 - bytes_of(kind)..])
    }

    // Hands on what waits.
    pub(crate) fn hand_on(&mut self) -> fmt::Result
        ensures { self.new.used ≡ 0 }
    {
        let used = self.used;
        self.used = 0;
        let text = str::from_utf8(&self.bytes[..used]).map_err(|_| fmt::Error)?;
        self.to.write_str(text)
    }
}
