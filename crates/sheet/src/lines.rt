// The nine lines of a sheet.
ghost use Rattle.std.specs.Prelude.{ℕ, [], ◌++◌, ◌+◌, ◌≤◌, ◌≡◌, List, length, take};
ghost use Rattle.sheet.specs.Lines.{decimal_digits, extreme_digits, line_of, lines_of};

use std::marker::Model;
use strip::Sheet;

// Room for nine lines, the longest of 31 bytes.
const ROOM: usize = 256;

// Lines, one behind the other.
#[derive(Drop)]
pub(crate) struct Page {
    bytes: [u8; ROOM],
    used: usize,
}

// Clauses see the bytes of the lines, and nothing of what stands behind them.
impl Model for Page {
    ghost Value = { List ℕ };

    ghost view = { λ p. take p.used p.bytes };

    ghost invariant = { λ p. p.used ≤ 256 };
}

impl Page {
    fn new() -> Page
        ensures { result ≡ [] }
    {
        Page {
            bytes: [0; ROOM],
            used: 0,
        }
    }

    // The bytes of all lines.
    pub(crate) fn text(&self) -> &[u8]
        ensures { result.now ≡ self.now }
    {
        &self.bytes[..self.used]
    }

    fn put(&mut self, text: &[u8])
        requires { length self.old + length text.now ≤ 256 }
        ensures { self.new ≡ self.old ++ text.now }
    {
        let end = self.used + text.len();
        self.bytes[self.used..end].copy_from_slice(text);
        self.used = end;
    }

    // A line: a name, what it stands for and a line end.
    fn put_line(&mut self, name: &[u8], said: &[u8])
        requires { length self.old + length name.now + length said.now + 1 ≤ 256 }
        ensures { self.new ≡ self.old ++ line_of name.now said.now }
    {
        self.put(name);
        self.put(said);
        self.put(b"\n");
    }

    // A line with a number.
    fn put_number(&mut self, name: &[u8], n: u64)
        requires { length self.old + length name.now + 21 ≤ 256 }
        ensures text { self.new ≡ self.old ++ line_of name.now (decimal_digits n) }
        ensures most { length self.new ≤ length self.old + length name.now + 21 }
    {
        let mut text = [0u8; 20];
        let k = io::decimal(n, &mut text);
        self.put_line(name, &text[..k]);
    }

    // A line with the bits of a sample, or `-` where there is none.
    fn put_extreme(&mut self, name: &[u8], f: Option<u32>)
        requires { length self.old + length name.now + 9 ≤ 256 }
        ensures text { self.new ≡ self.old ++ line_of name.now (extreme_digits f) }
        ensures most { length self.new ≤ length self.old + length name.now + 9 }
    {
        match f {
            Some(bits) => {
                let mut text = [0u8; 16];
                let k = io::hex(bits as u64, 8, &mut text);
                self.put_line(name, &text[..k]);
            }
            None => self.put_line(name, b"-"),
        }
    }
}

// All lines of a sheet.
pub(crate) fn put_sheet(s: Sheet) -> Page
    ensures { result ≡ lines_of s }
{
    let mut page = Page::new();
    page.put_number(b"samples=", s.samples);
    page.put_number(b"zero=", s.zero);
    page.put_number(b"subnormal=", s.subnormal);
    page.put_number(b"normal=", s.normal);
    page.put_number(b"infinite=", s.infinite);
    page.put_number(b"nan=", s.nan);
    page.put_extreme(b"lowest=", s.lowest);
    page.put_extreme(b"highest=", s.highest);
    page.put_number(b"tail=", s.tail as u64);
    page
}
