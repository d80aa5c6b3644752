//! Lengths of arrays.

ghost use Rattle.std.specs.Prelude.{◌≡◌, ◌-◌, take, drop, IfOk};
ghost use Rattle.go_ast.specs.Marks.{text_of};
ghost use Rattle.const_eval.specs.Lengths.{texts_of, tokens_in, joined, IsLength};
ghost use Rattle.const_eval.specs.Names.{names_of};
ghost use Rattle.const_eval.specs.Progress.{run_value, natural};

use crate::array::Length;
use crate::constants::Constants;
use crate::machine::Machine;
use crate::names::Names;
use go_ast::{Scanned, Span, Token, TokenRange};
use plain_data::{Mem, Txt};
use std::alloc::Global;

fn text_of(source: &[u8], span: Span) -> &[u8]
    ensures { result.now ≡ text_of source.now span }
{
    let start = (span.start as usize).min(source.len());
    let rest = &source[start..];
    let size = (span.end as usize).saturating_sub(span.start as usize);
    &rest[..size.min(rest.len())]
}

fn tokens_in(tokens: &[Token], run: TokenRange) -> &[Token]
    ensures { result.now ≡ tokens_in run tokens.now }
{
    let first = (run.first as usize).min(tokens.len());
    let rest = &tokens[first..];
    let size = (run.after as usize).saturating_sub(run.first as usize);
    &rest[..size.min(rest.len())]
}

/// The value of the expression that tokens are, or `None` where there isn't one.
fn run_value(alloc: Global, source: &[u8], tokens: &[Token], names: &Names) -> Mem<Option<i128>>
    ensures { IfOk result
        (λ found. found ≡ run_value (names_of names.now) (texts_of source.now tokens.now)) }
{
    let mut machine = Machine::new(alloc);
    for token in tokens {
        if !machine.take(text_of(source, token.span), names)? {
            return Ok(None);
        }
    }
    match machine.finish() {
        Some(value) => Ok(Some(value.number)),
        None => Ok(None),
    }
}

/// A number of at least 0.
fn natural(found: Option<i128>) -> Option<u128>
    ensures { result ≡ natural found }
{
    match found {
        Some(number) if number >= 0 => Some(number as u128),
        _ => None,
    }
}

/// The texts of tokens with one space between them.
fn joined(alloc: Global, source: &[u8], tokens: &[Token]) -> Mem<Vec<u8>>
    ensures { IfOk result (λ bytes. bytes.items ≡ joined (texts_of source.now tokens.now)) }
{
    let mut bytes = Vec::new(alloc);
    let Some((first, others)) = tokens.split_first() else {
        return Ok(bytes);
    };
    bytes.extend_from_slice(text_of(source, first.span))?;
    for token in others {
        bytes.push(b' ')?;
        bytes.extend_from_slice(text_of(source, token.span))?;
    }
    Ok(bytes)
}

/// The length that the tokens of a run give an array (Go specification, "Array types"): the value
/// of the constant expression that they are, where it has one of at least 0, and else their texts.
/// Every intermediate value lies between -2^127 and 2^127 - 1.
///
/// # Errors
///
/// `NoMemory` where an allocation is refused.
pub fn length(
    alloc: Global,
    source: &[u8],
    scanned: &Scanned,
    run: TokenRange,
    consts: &Constants,
) -> Mem<Length>
    ensures { IfOk result
        (IsLength (texts_of source.now (tokens_in run scanned.now.tokens)) consts.now) }
{
    let tokens = tokens_in(scanned.tokens.as_slice(), run);
    let names = Names {
        values: &consts.values,
        iota: None,
    };
    let found = run_value(alloc, source, tokens, &names)?;
    match natural(found) {
        Some(number) => Ok(Length::Known(number)),
        None => {
            let bytes = joined(alloc, source, tokens)?;
            let text = String::from_utf8_lossy(alloc, bytes.as_slice())?;
            Ok(Length::AsText(Txt::from_string(text)))
        }
    }
}
