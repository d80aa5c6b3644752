//! The value of an expression, by its symbols.

ghost use Rattle.std.specs.Prelude.{◌≡◌, [], ◌<◌, IfOk, MatchBool, OnOk, None, Some, false, length};
ghost use Rattle.std.specs.Prelude.{reverse, true};
ghost use Rattle.build_lines.specs.Reading.{evaluate, evaluate_symbol, evaluated_end, evaluating};
ghost use Rattle.build_lines.specs.Reading.{no_values};
ghost use Rattle.build_lines.specs.Evaluations.{IsAfter, evaluation_of};

use crate::frame::Frame;
use crate::symbol::Symbol;
use go_ast::Mem;
use std::alloc::Global;

/// How many pairs of parentheses may be open at once: an operand inside them is one level more.
const OPEN_MAX: usize = 99;

/// The values of what was read.
#[derive(Drop)]
pub struct Evaluation {
    /// Those outside the parentheses that are open, the innermost last.
    pub outer: Vec<Frame>,
    /// Those inside.
    pub frame: Frame,
    /// Whether an operand was the last.
    pub complete: bool,
}

impl Evaluation {
    /// Before the first symbol.
    fn new(alloc: Global) -> Evaluation
        ensures { evaluation_of result ≡ evaluating [] no_values false }
    {
        Evaluation {
            outer: Vec::new(alloc),
            frame: Frame::new(),
            complete: false,
        }
    }

    /// Takes a symbol where an operand is to come; whether it may stand there.
    fn take_first(&mut self, symbol: Symbol) -> Mem<bool>
        requires { self.old.complete ≡ false }
        ensures { IfOk result (λ taken. IsAfter self.old symbol taken self.new) }
    {
        match symbol {
            Symbol::Tag(value) => {
                self.frame = self.frame.with_operand(value);
                self.complete = true;
                Ok(true)
            }
            Symbol::Not if !self.frame.negated => {
                self.frame = self.frame.negate();
                Ok(true)
            }
            Symbol::Open if self.outer.len() < OPEN_MAX => {
                self.outer.push(self.frame)?;
                self.frame = Frame::new();
                Ok(true)
            }
            _ => Ok(false),
        }
    }

    /// Takes a symbol after an operand; whether it may stand there.
    fn take_next(&mut self, symbol: Symbol) -> bool
        requires { self.old.complete ≡ true }
        ensures { IsAfter self.old symbol result self.new }
    {
        match symbol {
            Symbol::And => {
                self.complete = false;
                true
            }
            Symbol::Or => {
                self.frame = self.frame.with_alternative();
                self.complete = false;
                true
            }
            Symbol::Close => match self.outer.pop() {
                None => false,
                Some(outer) => {
                    self.frame = outer.with_operand(self.frame.value());
                    true
                }
            },
            _ => false,
        }
    }

    /// Takes the next symbol; whether it may stand there.
    fn take(&mut self, symbol: Symbol) -> Mem<bool>
        ensures { IfOk result (λ taken. IsAfter self.old symbol taken self.new) }
    {
        if self.complete {
            Ok(self.take_next(symbol))
        } else {
            self.take_first(symbol)
        }
    }

    /// The value, where the expression may end.
    fn end(&self) -> Option<bool>
        ensures { let e = evaluation_of self.now in
            result ≡ evaluated_end e.outer e.frame e.complete }
    {
        if self.complete && self.outer.is_empty() {
            Some(self.frame.value())
        } else {
            None
        }
    }
}

/// The value of an expression with these symbols, or `None` where they are none of an expression of
/// at most 100 levels.
pub fn value_of(alloc: Global, symbols: &[Symbol]) -> Mem<Option<bool>>
    ensures { IfOk result (λ value. value ≡ evaluate symbols.now (evaluating [] no_values false)) }
{
    let mut evaluation = Evaluation::new(alloc);
    for symbol in symbols {
        if !evaluation.take(*symbol)? {
            return Ok(None);
        }
    }
    Ok(evaluation.end())
}
