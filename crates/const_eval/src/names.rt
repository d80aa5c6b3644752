//! What names are worth.

ghost use Rattle.std.specs.Prelude.{◌≡◌};
ghost use Rattle.std.specs.BTreeMap.{get_by_text};
ghost use Rattle.std.specs.Str.{bytes_eq};
ghost use Rattle.const_eval.specs.Names.{names_of};
ghost use Rattle.const_eval.specs.Reading.{operand_value, read_literal};
ghost use Rattle.const_eval.specs.Expressions.{begins_literal};

use crate::lexeme::is;
use crate::literal::{begins_literal, literal_value};
use crate::value::Value;
use std::collections::BTreeMap;

/// The values of constants by their names.
pub type Values = BTreeMap<String, i128>;

/// What names are worth in a run.
#[derive(Clone, Copy)]
pub struct Names<'a> {
    /// The values of constants.
    pub values: &'a Values,
    /// The number that `iota` stands for, in the run of a constant.
    pub iota: Option<u32>,
}

/// The value that a map has at a name.
fn look_up(values: &Values, name: &[u8]) -> Option<i128>
    ensures { result ≡ get_by_text values.now name.now }
{
    match str::from_utf8(name) {
        Ok(name) => values.get(name).copied(),
        Err(_) => None,
    }
}

impl Names<'_> {
    /// What a name is worth.
    fn name_value(&self, name: &[u8]) -> Option<i128>
        ensures { result ≡ names_of self.now name.now }
    {
        match self.iota {
            Some(number) if is(name, "iota") => Some(i128::from(number)),
            _ => look_up(self.values, name),
        }
    }

    /// What an operand is worth.
    pub fn operand_value(&self, text: &[u8]) -> Option<Value>
        ensures { result ≡ operand_value (names_of self.now) text.now }
    {
        let number = if begins_literal(text) {
            literal_value(text)?
        } else {
            self.name_value(text)?
        };
        Some(Value { number, levels: 1 })
    }
}
