//! Text that waits to be written: it goes out page by page.
ghost use Rattle.std.specs.Prelude.{◌≡◌, ◌+◌, ◌≤◌, [], ◌++◌, length, decimal, OnOk};
ghost use Rattle.cycle_journal.specs.Page.{Adds, page_size, longest_line};

use arrayvec::ArrayString;
use itoa::Buffer;
use ses_io::{Failed, Sink, write_all};

// The room of a page, in bytes.
const PAGE: usize = 8_192;

// At most so many bytes has a line: the longest is that of an entry with 32 notes.
const LINE: usize = 3_072;

/// The text that was not written yet. Pieces are added where there is room for them.
#[derive(Drop)]
pub(crate) struct Page {
    pub text: ArrayString<PAGE>,
}

impl Page {
    /// An empty page.
    pub(crate) fn new() -> Page
        ensures { result.text.bytes ≡ [] }
    {
        Page {
            text: ArrayString::new(),
        }
    }

    /// Adds a text.
    pub(crate) fn word(&mut self, text: &str)
        requires { length self.old.text.bytes + length text.now ≤ page_size }
        ensures bytes { self.new.text.bytes ≡ self.old.text.bytes ++ text.now }
        ensures long { length self.new.text.bytes
            ≡ length self.old.text.bytes + length text.now }
    {
        self.text.push_str(text);
    }

    /// Adds a text and a number behind it.
    pub(crate) fn numbered(&mut self, text: &str, n: u64)
        requires { length self.old.text.bytes + length text.now + 20 ≤ page_size }
        ensures bytes { self.new.text.bytes ≡ self.old.text.bytes ++ (text.now ++ decimal n) }
        ensures long { length self.new.text.bytes
            ≤ length self.old.text.bytes + length text.now + 20 }
    {
        self.word(text);
        self.word(Buffer::new().format(n));
    }

    /// Writes what waits. The page is empty then.
    pub(crate) fn write_out<O: Sink>(&mut self, out: &mut O) -> Result<(), Failed>
        ensures adds { Adds O.outside [] self.old.text.bytes self.new.text.bytes
            out.old out.new result }
        ensures empty { OnOk result (self.new.text.bytes ≡ []) }
    {
        write_all(out, self.text.as_str().as_bytes())?;
        self.text.clear();
        Ok(())
    }

    /// Sees to it that one more line has room: writes what waits where it hasn't.
    pub(crate) fn make_room<O: Sink>(&mut self, out: &mut O) -> Result<(), Failed>
        ensures adds { Adds O.outside [] self.old.text.bytes self.new.text.bytes
            out.old out.new result }
        ensures room { OnOk result (length self.new.text.bytes + longest_line ≤ page_size) }
    {
        if self.text.len() + LINE <= PAGE {
            return Ok(());
        }
        self.write_out(out)
    }
}
