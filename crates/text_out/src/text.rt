//! Text that grows at its end.

ghost use Rattle.std.specs.Prelude.{◌≡◌, [], ◌++◌, decimal, IsUtf8, OnErr, OnOk};
ghost use Rattle.text_out.specs.Escape.{escaped};

use crate::escape::append_escaped;
use itoa::Buffer;
use plain_data::{Mem, NoMemory};
use std::alloc::Global;
use std::marker::Model;

/// UTF-8 text that grows at its end, seen by contracts as the list of its bytes.
#[derive(Debug, Drop)]
pub struct Text {
    bytes: Vec<u8>,
}

impl Model for Text {
    ghost use Rattle.std.specs.Prelude.{List, ℕ, IsUtf8};

    ghost Value = { List ℕ };

    ghost view = { λ it. it.bytes.items };

    ghost invariant = { λ it. IsUtf8 it.bytes.items };
}

impl Text {
    /// The empty text. It takes no memory until it grows, from this allocator.
    pub fn new(alloc: Global) -> Text
        ensures { result ≡ [] }
    {
        Text {
            bytes: Vec::new(alloc),
        }
    }

    /// Appends a text. After `NoMemory` the text is unchanged.
    pub fn push(&mut self, text: &str) -> Mem<()>
        ensures ok { OnOk result (self.new ≡ self.old ++ text.now) }
        ensures err { OnErr result (self.new ≡ self.old) }
    {
        self.bytes.extend_from_slice(text.as_bytes())?;
        Ok(())
    }

    /// Appends a text for use in HTML: `&`, `<`, `>`, `"` and `'` are written as `&amp;`, `&lt;`,
    /// `&gt;`, `&quot;` and `&#39;`. After `NoMemory` the text is unchanged.
    pub fn push_escaped(&mut self, text: &str) -> Mem<()>
        ensures ok { OnOk result (self.new ≡ self.old ++ escaped text.now) }
        ensures err { OnErr result (self.new ≡ self.old) }
    {
        let len = self.bytes.len();
        if append_escaped(&mut self.bytes, text.as_bytes()).is_err() {
            self.bytes.truncate(len);
            return Err(NoMemory);
        }
        Ok(())
    }

    /// Appends a number in decimal digits, with no leading zero. After `NoMemory` the text is as it
    /// was.
    pub fn push_number(&mut self, n: u64) -> Mem<()>
        ensures ok { OnOk result (self.new ≡ self.old ++ decimal n) }
        ensures err { OnErr result (self.new ≡ self.old) }
    {
        let mut buffer = Buffer::new();
        self.bytes.extend_from_slice(buffer.format(n).as_bytes())?;
        Ok(())
    }

    /// The bytes of the text. It takes no memory.
    pub fn into_bytes(self) -> Vec<u8>
        ensures bytes { result.items ≡ self }
        ensures utf8 { IsUtf8 result.items }
    {
        let Text { bytes } = self;
        bytes
    }
}
