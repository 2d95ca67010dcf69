// A line of the transcript, put together in a fixed buffer and written at once.
ghost use Rattle.std.specs.Prelude.{◌≡◌};
ghost use Rattle.lines.specs.Line.{line, written};

use std::fmt::{self, Display, Write};
use std::str;

// The descriptor that a program's output goes to.
const STANDARD_OUTPUT: i32 = 1;

// No line is longer: what would not fit is cut.
const LINE_SIZE: usize = 256;

// The digits of a number at most.
const DIGITS: usize = 20;

// Writes the text. What can't be written is left out and the call goes on, for nothing of it depends on the
// transcript: so the answer of the write is let go.
pub(crate) fn print(text: &[u8]) {
    io::write_all(STANDARD_OUTPUT, text);
}

// The line so far. What is not used yet is blank.
// An array and a length, as a Datagram is.
#[derive(Drop)]
pub(crate) struct Line {
    text: [u8; LINE_SIZE],
    used: usize,
}

impl Line {
    pub(crate) fn empty() -> Line {
        Line {
            text: [b' '; LINE_SIZE],
            used: 0,
        }
    }

    // What is shown, behind the rest. A line refuses nothing, so there is no error to tell.
    pub(crate) fn put(&mut self, shown: impl Display + Drop) {
        let _ = write!(self, "{shown}");
    }

    // The same in a column: blanks fill its width.
    pub(crate) fn column(&mut self, shown: impl Display + Drop, width: usize) {
        let end = self.used.saturating_add(width);
        self.put(shown);
        self.used = self.used.max(end);
    }

    // Ends the line and writes it.
    pub(crate) fn print(&mut self) {
        self.put("\n");
        print(words::first(&self.text, self.used));
    }
}

impl Write for Line {
    // The text behind what is used: what does not fit is left out.
    ghost write_str_gives = { λ before text after.
        line after.used after.text ≡ written text (line before.used before.text) };

    fn write_str(&mut self, text: &str) -> fmt::Result {
        self.used = lines::put_text(&mut self.text, self.used, text.as_bytes());
        Ok(())
    }
}

// A number as the transcript shows it, in decimal.
#[derive(Clone, Copy, Debug, PartialEq, Eq)]
pub(crate) struct Decimal(pub u64);

impl Display for Decimal {
    fn fmt<W: Write>(&self, f: &mut fmt::Formatter<W>) -> fmt::Result {
        let mut digits = [0; DIGITS];
        let used = lines::put_number(&mut digits, 0, self.0);
        f.pad(str::from_utf8(words::first(&digits, used)).unwrap_or("?"))
    }
}
