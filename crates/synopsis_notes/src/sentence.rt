//! The first sentence of a text.

ghost use Rattle.std.specs.Prelude.{◌≡◌, [], IfOk, None, OnOk, string_bytes};
ghost use Rattle.std.specs.Str.{chars};
ghost use Rattle.synopsis_notes.specs.Synopses.{ends_sentence, first_sentence, is_capital};
ghost use Rattle.synopsis_notes.specs.Synopses.{is_initial, is_white, is_wide_stop, squeezed};
ghost use Rattle.synopsis_notes.specs.SentenceSteps.{IsPushed, IsTaken, begins_white};
ghost use Rattle.synopsis_notes.specs.SentenceSteps.{is_white_or_end};

use go_ast::{Mem, Txt};
use go_chars::is_exported;
use std::alloc::Global;

/// Whether a character is a blank or a newline.
fn is_white(c: char) -> bool
    ensures { result ≡ is_white c }
{
    c == ' ' || c == '\t' || c == '\n'
}

/// Whether a text begins with a blank or a newline.
fn begins_white(text: &str) -> bool
    ensures { result ≡ begins_white (chars text.now) }
{
    match text.chars().next() {
        None => false,
        Some(c) => is_white(c),
    }
}

/// Whether a text is empty, or begins with a blank or a newline.
fn is_white_or_end(text: &str) -> bool
    ensures { result ≡ is_white_or_end (chars text.now) }
{
    match text.chars().next() {
        None => true,
        Some(c) => is_white(c),
    }
}

/// Whether a character is there, and is an upper case letter.
fn is_capital(c: Option<char>) -> bool
    ensures { result ≡ is_capital c }
{
    match c {
        None => false,
        Some(c) => is_exported(c.encode_utf8(&mut [0; 4])),
    }
}

/// Whether a character ends a sentence wherever it stands.
fn is_wide_stop(c: char) -> bool
    ensures { result ≡ is_wide_stop c }
{
    c == '\u{3002}' || c == '\u{FF0E}'
}

/// A sentence that grows, and its last two characters.
#[derive(Drop)]
struct Sentence {
    text: String,
    earlier: Option<char>,
    before: Option<char>,
}

impl Sentence {
    /// No character yet.
    fn new(alloc: Global) -> Sentence
        ensures text { string_bytes result.text ≡ [] }
        ensures earlier { result.earlier ≡ None }
        ensures before { result.before ≡ None }
    {
        Sentence {
            text: String::new(alloc),
            earlier: None,
            before: None,
        }
    }

    /// Adds a character.
    fn push(&mut self, c: char) -> Mem<()>
        ensures { OnOk result (IsPushed self.old c self.new) }
    {
        self.text.push(c)?;
        self.earlier = self.before;
        self.before = Some(c);
        Ok(())
    }

    /// Whether the last character is an upper case letter that stands alone.
    fn ends_in_initial(&self) -> bool
        ensures { result ≡ is_initial self.now.earlier self.now.before }
    {
        is_capital(self.before) && !is_capital(self.earlier)
    }

    /// Whether the sentence ends with a character that isn't a blank, by the text after it.
    fn ends_with(&self, c: char, after: &str) -> bool
        ensures { result
            ≡ ends_sentence self.now.earlier self.now.before c (squeezed (chars after.now)) }
    {
        is_wide_stop(c) || (c == '.' && is_white_or_end(after) && !self.ends_in_initial())
    }

    /// Takes the next character, by the text after it; whether the sentence continues.
    fn take(&mut self, c: char, after: &str) -> Mem<bool>
        ensures { IfOk result (λ goes_on. IsTaken self.old c (chars after.now) goes_on self.new) }
    {
        if !is_white(c) {
            let ends = self.ends_with(c, after);
            self.push(c)?;
            return Ok(!ends);
        }
        if !begins_white(after) {
            self.push(' ')?;
        }
        Ok(true)
    }
}

/// The first sentence of a text, in which each run of blanks and newlines is made one space.
pub fn first_sentence(alloc: Global, text: &str) -> Mem<Txt>
    ensures { IfOk result (λ sentence. sentence ≡ first_sentence text.now) }
{
    let mut sentence = Sentence::new(alloc);
    let mut characters = text.chars();
    while let Some(c) = characters.next() {
        if !sentence.take(c, characters.as_str())? {
            break;
        }
    }
    Ok(Txt::from_string(sentence.text))
}
