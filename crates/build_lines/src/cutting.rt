//! The symbols of an expression, found in one pass over its characters.

ghost use Rattle.std.specs.Prelude.{◌≡◌, [], IfOk, None, OnOk, Some, string_bytes};
ghost use Rattle.std.specs.Str.{chars};
ghost use Rattle.build_lines.specs.Expressions.{is_tag_character};
ghost use Rattle.build_lines.specs.Reading.{cut, cut_end, mark_step, step_at, step_to};
ghost use Rattle.build_lines.specs.Tags.{holds};
ghost use Rattle.build_lines.specs.Cuttings.{IsCutAfter, IsTagEnded};

use crate::symbol::{Place, Step, Symbol};
use crate::tag::holds;
use go_ast::{Config, Mem, Seq};
use go_chars::{is_digit, is_letter};
use std::alloc::Global;

/// Whether a tag may have a character: a letter, a digit, `_` or `.`.
fn is_tag_character(c: char) -> bool
    ensures { result ≡ is_tag_character c }
{
    is_letter(c) || is_digit(c) || c == '.'
}

/// A step that ends no symbol.
fn step_into(place: Place) -> Option<Step>
    ensures { result ≡ Some (step_to None place) }
{
    Some(Step {
        symbol: None,
        place,
    })
}

/// A step that ends a symbol.
fn step_past(symbol: Symbol) -> Option<Step>
    ensures { result ≡ Some (step_to (Some symbol) Place.Between) }
{
    Some(Step {
        symbol: Some(symbol),
        place: Place::Between,
    })
}

/// What a character that no tag has does between symbols, or `None` where it may not stand there.
fn mark_step(c: char) -> Option<Step>
    ensures { result ≡ mark_step c }
{
    match c {
        ' ' | '\t' => step_into(Place::Between),
        '(' => step_past(Symbol::Open),
        ')' => step_past(Symbol::Close),
        '!' => step_past(Symbol::Not),
        '&' => step_into(Place::AfterAmpersand),
        '|' => step_into(Place::AfterBar),
        _ => None,
    }
}

/// What a character does at a place, or `None` where it may not stand there.
fn step_at(place: Place, c: char) -> Option<Step>
    ensures { result ≡ step_at place c }
{
    match place {
        Place::AfterAmpersand if c == '&' => step_past(Symbol::And),
        Place::AfterBar if c == '|' => step_past(Symbol::Or),
        Place::AfterAmpersand | Place::AfterBar => None,
        Place::Between | Place::InTag if is_tag_character(c) => step_into(Place::InTag),
        Place::Between | Place::InTag => mark_step(c),
    }
}

/// What was found of a text.
#[derive(Drop)]
pub struct Cutting {
    /// The symbols.
    pub symbols: Seq<Symbol>,
    /// The characters of the tag that isn't over.
    pub tag: String,
    /// Where the next character stands.
    pub place: Place,
}

impl Cutting {
    /// Ends the tag, if one ends before a character that leads to this place.
    fn end_tag(&mut self, place: Place, config: &Config) -> Mem<()>
        ensures { OnOk result (IsTagEnded (holds config.now) self.old place self.new) }
    {
        if self.place == Place::InTag && place != Place::InTag {
            let holds = holds(self.tag.as_bytes(), config);
            self.symbols.push(Symbol::Tag(holds))?;
        }
        if place != Place::InTag {
            self.tag.clear();
        }
        Ok(())
    }

    /// Takes the next character; whether it may stand there.
    fn take(&mut self, c: char, config: &Config) -> Mem<bool>
        ensures { IfOk result (λ taken. IsCutAfter (holds config.now) self.old c taken self.new) }
    {
        let Some(step) = step_at(self.place, c) else {
            return Ok(false);
        };
        self.end_tag(step.place, config)?;
        if step.place == Place::InTag {
            self.tag.push(c)?;
        }
        if let Some(symbol) = step.symbol {
            self.symbols.push(symbol)?;
        }
        self.place = step.place;
        Ok(true)
    }

    /// The symbols of the whole text, where it may end.
    fn end(self, config: &Config) -> Mem<Option<Seq<Symbol>>>
        ensures { IfOk result (λ symbols.
            symbols ≡ cut_end (holds config.now) self.place (string_bytes self.tag) self.symbols) }
    {
        let Cutting {
            mut symbols,
            tag,
            place,
        } = self;
        match place {
            Place::Between => Ok(Some(symbols)),
            Place::InTag => {
                symbols.push(Symbol::Tag(holds(tag.as_bytes(), config)))?;
                Ok(Some(symbols))
            }
            Place::AfterAmpersand | Place::AfterBar => Ok(None),
        }
    }
}

/// The symbols of a text, with the values of its tags for a configuration, or `None` where it has
/// others.
pub fn symbols_of(alloc: Global, text: &str, config: &Config) -> Mem<Option<Seq<Symbol>>>
    ensures { IfOk result (λ symbols.
        symbols ≡ cut (holds config.now) (chars text.now) Place.Between [] []) }
{
    let mut cutting = Cutting {
        symbols: Seq::new(alloc),
        tag: String::new(alloc),
        place: Place::Between,
    };
    for c in text.chars() {
        if !cutting.take(c, config)? {
            return Ok(None);
        }
    }
    cutting.end(config)
}
