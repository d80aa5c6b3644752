//! The evaluation of an expression, token by token.

ghost use Rattle.std.specs.Prelude.{◌≡◌, [], ◌∷◌, reverse, IfOk, OnOk, MatchOption, None, Some};
ghost use Rattle.const_eval.specs.Machine.{values, arrive, settle, close, go_on, begin, step};
ghost use Rattle.const_eval.specs.Machine.{finish, having, left_of, state_of, AreWithin, Steps};
ghost use Rattle.const_eval.specs.Lexemes as lexemes;
ghost use Rattle.go_literals.specs.Options.{◌|>◌};
ghost use Rattle.const_eval.specs.Names.{names_of};
ghost use Rattle.const_eval.specs.Reading.{operand_value};

use crate::lexeme::{Lexeme, lexeme_of};
use crate::names::Names;
use crate::operator::Operator;
use crate::value::Value;
use plain_data::Mem;
use std::alloc::Global;

/// What waits for its operand.
#[derive(Clone, Copy)]
pub enum Frame<X> {
    /// An opening bracket.
    Open,
    /// A unary operator.
    Unary(Operator),
    /// A product and the operator after it.
    Product(X, Operator),
    /// A sum and the operator after it.
    Sum(X, Operator),
}

/// An evaluation on its way: what waits, the innermost last, and the operand before the next token,
/// where there is one.
#[derive(Drop)]
pub struct Machine {
    pub frames: Vec<Frame<Value>>,
    pub operand: Option<Value>,
}

/// What binds the operand tightest is applied to it: how many frames remain, and the value.
fn arrive(frames: &[Frame<Value>], operand: Value) -> Option<(usize, Value)>
    ensures within { AreWithin frames.now result }
    ensures value { left_of frames.now result ≡ arrive values (reverse frames.now) operand }
{
    let mut rest = frames;
    let mut value = operand;
    while let Some((last, before)) = rest.split_last() {
        match last {
            Frame::Unary(operator) => value = value.apply_unary(*operator)?,
            Frame::Product(left, operator) => {
                let product = left.apply_binary(*operator, value)?;
                return Some((before.len(), product));
            }
            Frame::Open | Frame::Sum(_, _) => break,
        }
        rest = before;
    }
    Some((rest.len(), value))
}

/// The sum that waits for the product is added to it: how many frames remain, and the value.
fn settle(frames: &[Frame<Value>], operand: Value) -> Option<(usize, Value)>
    ensures within { AreWithin frames.now result }
    ensures value { left_of frames.now result ≡ settle values (reverse frames.now) operand }
{
    match frames.split_last() {
        Some((Frame::Sum(left, operator), before)) => {
            let sum = left.apply_binary(*operator, operand)?;
            Some((before.len(), sum))
        }
        _ => Some((frames.len(), operand)),
    }
}

/// The value in brackets, as an operand before its closing bracket.
fn close(frames: &[Frame<Value>], operand: Value) -> Option<(usize, Value)>
    ensures within { AreWithin frames.now result }
    ensures value { left_of frames.now result ≡ close values (reverse frames.now, operand) }
{
    match frames.split_last() {
        Some((Frame::Open, before)) => arrive(before, operand.parenthesize()?),
        _ => None,
    }
}

impl Machine {
    /// An evaluation before its first token. It takes no memory until it grows.
    pub fn new(alloc: Global) -> Machine
        ensures { state_of result.frames.items result.operand ≡ ([], None) }
    {
        Machine {
            frames: Vec::new(alloc),
            operand: None,
        }
    }

    /// What is left is kept, where there is something.
    fn keep(&mut self, found: Option<(usize, Value)>) -> bool
        requires { AreWithin self.old.frames.items found }
        ensures { Steps (left_of self.old.frames.items found |> having) result
            (state_of self.new.frames.items self.new.operand) }
    {
        let Some((count, operand)) = found else {
            return false;
        };
        self.frames.truncate(count);
        self.operand = Some(operand);
        true
    }

    /// A frame waits for its operand.
    fn wait(&mut self, frame: Frame<Value>) -> Mem<bool>
        ensures { IfOk result (λ went.
            Steps (Some (frame ∷ reverse self.old.frames.items, None)) went
            (state_of self.new.frames.items self.new.operand)) }
    {
        self.frames.push(frame)?;
        self.operand = None;
        Ok(true)
    }

    /// The product is added to the sum that waits for it.
    fn settle(&mut self, operand: Value) -> Option<Value>
        ensures { MatchOption result (settle values (reverse self.old.frames.items) operand ≡ None)
            (λ sum. settle values (reverse self.old.frames.items) operand
            ≡ Some (reverse self.new.frames.items, sum)) }
    {
        let (count, sum) = settle(&self.frames, operand)?;
        self.frames.truncate(count);
        Some(sum)
    }

    /// Takes a token where an operand may begin; whether it may stand there and has a value.
    fn begin(&mut self, text: &[u8], names: &Names) -> Mem<bool>
        ensures { IfOk result (λ went. Steps
            (begin values (operand_value (names_of names.now)) (reverse self.old.frames.items)
            text.now (lexemes.lexeme_of text.now))
            went (state_of self.new.frames.items self.new.operand)) }
    {
        match lexeme_of(text) {
            Lexeme::Open => self.wait(Frame::Open),
            Lexeme::Operator(operator) if operator.is_unary() => {
                self.wait(Frame::Unary(operator))
            }
            Lexeme::Operand => match names.operand_value(text) {
                Some(value) => {
                    let found = arrive(&self.frames, value);
                    Ok(self.keep(found))
                }
                None => Ok(false),
            },
            _ => Ok(false),
        }
    }

    /// Takes a token after an operand; whether it may stand there and has a value.
    fn go_on(&mut self, operand: Value, lexeme: Lexeme) -> Mem<bool>
        ensures { IfOk result (λ went.
            Steps (go_on values (reverse self.old.frames.items) operand lexeme)
            went (state_of self.new.frames.items self.new.operand)) }
    {
        match lexeme {
            Lexeme::Operator(operator) if operator.is_multiplying() => {
                self.wait(Frame::Product(operand, operator))
            }
            Lexeme::Operator(operator) => match self.settle(operand) {
                Some(sum) => self.wait(Frame::Sum(sum, operator)),
                None => Ok(false),
            },
            Lexeme::Close => match self.settle(operand) {
                Some(sum) => {
                    let found = close(&self.frames, sum);
                    Ok(self.keep(found))
                }
                None => Ok(false),
            },
            _ => Ok(false),
        }
    }

    /// Takes the next token; whether the tokens so far may begin an expression that has a value.
    pub fn take(&mut self, text: &[u8], names: &Names) -> Mem<bool>
        ensures { IfOk result (λ went. Steps
            (step values (operand_value (names_of names.now))
            (state_of self.old.frames.items self.old.operand) text.now)
            went (state_of self.new.frames.items self.new.operand)) }
    {
        match self.operand {
            None => self.begin(text, names),
            Some(operand) => self.go_on(operand, lexeme_of(text)),
        }
    }

    /// The value of the whole expression, where it ends here.
    pub fn finish(self) -> Option<Value>
        ensures { result ≡ finish values (state_of self.frames.items self.operand) }
    {
        let (count, sum) = settle(&self.frames, self.operand?)?;
        if count == 0 { Some(sum) } else { None }
    }
}
