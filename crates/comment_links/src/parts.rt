//! Inlines that grow by what stands after them.

ghost use Rattle.std.specs.Prelude.{◌≡◌, ◌++◌, IfOk, OnOk, []};
ghost use Rattle.comment_links.specs.InlineSteps.{nothing, whole, with_part, with_text};

use crate::part::Inline;
use go_ast::{Mem, Seq, Txt};
use std::alloc::Global;
use std::marker::Model;
use std::mem;

/// Inlines, and the plain text after them, which may still grow.
#[derive(Drop)]
pub struct Parts {
    done: Seq<Inline>,
    plain: String,
}

impl Model for Parts {
    ghost use Rattle.std.specs.Prelude.{string_bytes};
    ghost use Rattle.comment_links.specs.InlineSteps.{Grown};

    ghost Value = { Grown };

    ghost view = { λ it. record { done = it.done; plain = string_bytes it.plain } };
}

impl Parts {
    /// Nothing yet.
    pub fn new(alloc: Global) -> Parts
        ensures { result ≡ nothing }
    {
        Parts {
            done: Seq::new(alloc),
            plain: String::new(alloc),
        }
    }

    /// Adds plain text.
    pub fn push_plain(&mut self, text: &str) -> Mem<()>
        ensures { OnOk result (self.new ≡ with_text self.old text.now) }
    {
        self.plain.push_str(text)?;
        Ok(())
    }

    /// Puts the plain text so far among the inlines.
    fn end_plain(&mut self, alloc: Global) -> Mem<()>
        ensures { OnOk result (self.new ≡ record { done = whole self.old []; plain = [] }) }
    {
        if self.plain.is_empty() {
            return Ok(());
        }
        let plain = mem::replace(&mut self.plain, String::new(alloc));
        self.done.push(Inline::Plain(Txt::from_string(plain)))
    }

    /// Adds what a mark becomes.
    pub fn push(&mut self, alloc: Global, inline: Inline) -> Mem<()>
        ensures { OnOk result (self.new ≡ with_part self.old inline) }
    {
        match inline {
            Inline::Plain(text) => self.push_plain(text.as_str()),
            Inline::Link { text, href } => {
                self.end_plain(alloc)?;
                self.done.push(Inline::Link { text, href })
            }
        }
    }

    /// All inlines.
    pub fn finish(mut self, alloc: Global) -> Mem<Seq<Inline>>
        ensures { IfOk result (λ inlines. inlines ≡ whole self []) }
    {
        self.end_plain(alloc)?;
        Ok(self.done)
    }
}
