//! One pass over a source.

ghost use Rattle.std.specs.Prelude.{◌≡◌, ◌++◌, ◌∷◌, ◌≤◌, All, List, [], length, IfOk, IfErr, OnOk};
ghost use Rattle.std.specs.Prelude.{MatchResult, ◌+◌, drop};
ghost use Rattle.std.specs.List.{prefix_len};
ghost use Rattle.go_ast.specs.declared.token.Token.{Token};
ghost use Rattle.go_ast.specs.declared.token.Comment.{Comment};
ghost use Rattle.go_ast.specs.declared.fault.Fault.{Fault};
ghost use Rattle.go_ast.specs.declared.token.TheConstants.{MAX_SOURCE_BYTES};
ghost use Rattle.go_ast.specs.Position.{line_starts};
ghost use Rattle.go_ast.specs.Reading.{Reads, ScanFault, token_of};
ghost use Rattle.go_ast.specs.Tokens.{AreSpelled, IsWithin};
ghost use Rattle.go_scanner.specs.Results.{AreInOrder, IsRead, IsRefusedAs, RefusedFor};
ghost use Rattle.go_scanner.specs.Classes.{is_blank};
ghost use Rattle.go_scanner.specs.Steps.{comment_of, mark_length, pending_at, pending_of};
ghost use Rattle.go_scanner.specs.Steps.{semicolon_at};

use crate::class::is_blank;
use crate::fault::fault_at;
use crate::front::item_shape;
use crate::lines::line_starts;
use crate::shape::Shape;
use go_ast::{Comment, Fault, Mem, Refused, Scanned, Seq, Span, Token, TokenKind};
use std::alloc::Global;

/// The tokens and comments of a source.
#[derive(Drop)]
struct Found {
    tokens: Vec<Token>,
    comments: Vec<Comment>,
}

/// No token yet, with room for as many as a source of this length mostly has.
fn no_tokens(alloc: Global, length: usize) -> Mem<Vec<Token>>
    ensures { IfOk result (λ tokens. tokens.items ≡ []) }
{
    Ok(Vec::with_capacity(alloc, length / 4)?)
}

/// Adds the semicolon that the last token takes, where a line ends, and gives what is pending after
/// that.
#[inline(always)]
fn end_line(tokens: &mut Vec<Token>, pending: Option<u32>, ends: bool) -> Mem<Option<u32>>
    ensures tokens { OnOk result
        (tokens.new.items ≡ tokens.old.items ++ semicolon_at ends pending) }
    ensures pending { IfOk result (λ after. after ≡ pending_at ends pending) }
{
    match pending {
        Some(end) if ends => {
            push_token(tokens, TokenKind::AutoSemi, end, end)?;
            Ok(None)
        }
        _ => Ok(pending),
    }
}

/// Where a token ends, if it takes a semicolon.
#[inline(always)]
fn pending_of(takes: bool, end: u32) -> Option<u32>
    ensures { result ≡ pending_of takes end }
{
    if takes { Some(end) } else { None }
}

/// Adds a token that stands between two offsets.
#[inline(always)]
fn push_token(tokens: &mut Vec<Token>, kind: TokenKind, start: u32, end: u32) -> Mem<()>
    ensures { OnOk result (tokens.new.items ≡ tokens.old.items ++ token_of kind start end ∷ []) }
{
    let span = Span { start, end };
    tokens.push(Token { kind, span })?;
    Ok(())
}

/// Adds a comment that stands between two offsets.
#[inline(always)]
fn push_comment(comments: &mut Vec<Comment>, general: bool, start: u32, end: u32) -> Mem<()>
    ensures { OnOk result
        (comments.new.items ≡ comments.old.items ++ comment_of general start end ∷ []) }
{
    let span = Span { start, end };
    comments.push(Comment { span, general })?;
    Ok(())
}

/// How many bytes the byte order mark at the start has, or 0 where there isn't one.
fn mark_length(source: &[u8]) -> usize
    ensures { result ≡ mark_length source.now }
{
    if source.starts_with(&[0xEF, 0xBB, 0xBF]) {
        3
    } else {
        0
    }
}

/// How many bytes of white space stand at the front, up to a newline.
#[inline(always)]
fn blank_length(bytes: &[u8]) -> usize
    ensures { result ≡ prefix_len is_blank bytes.now }
{
    for (i, byte) in bytes.iter().enumerate() {
        if !is_blank(*byte) {
            return i;
        }
    }
    bytes.len()
}

/// The place after the white space at a place, up to a newline.
#[inline(always)]
fn past_blanks(source: &[u8], at: usize) -> usize
    requires size { length source.now ≤ MAX_SOURCE_BYTES }
    requires place { at ≤ length source.now }
    ensures { result ≡ at + prefix_len is_blank (drop at source.now) }
{
    at + blank_length(&source[at..])
}

/// Reads a source from its start to its end, or to the first place where no item stands.
fn read(alloc: Global, text: &str) -> Result<Found, Refused>
    requires { length text.now ≤ MAX_SOURCE_BYTES }
    ensures read { IfOk result (λ found. Reads text.now found.tokens.items found.comments.items) }
    ensures refused { IfErr result (RefusedFor text.now) }
{
    let source = text.as_bytes();
    let mut tokens = no_tokens(alloc, source.len())?;
    let mut comments = Vec::new(alloc);
    let mut pending = None;
    let mut at = past_blanks(source, mark_length(source));
    while at < source.len() {
        let Some(shape) = item_shape(&text[at..]) else {
            return Err(Refused::Fault(fault_at(at as u32, &source[at..])));
        };
        let start = at as u32;
        let after = at + shape.length();
        let end = after as u32;
        at = past_blanks(source, after);
        match shape {
            Shape::Blank(_) => {}
            Shape::LineEnd => pending = end_line(&mut tokens, pending, true)?,
            Shape::Comment(_) => {
                pending = end_line(&mut tokens, pending, true)?;
                push_comment(&mut comments, false, start, end)?;
            }
            Shape::General(_, lines) => {
                pending = end_line(&mut tokens, pending, lines)?;
                push_comment(&mut comments, true, start, end)?;
            }
            Shape::Token(kind, takes, _) => {
                push_token(&mut tokens, kind, start, end)?;
                pending = pending_of(takes, end);
            }
        }
    }
    end_line(&mut tokens, pending, true)?;
    Ok(Found { tokens, comments })
}

/// The tokens and comments of a Go source, and the offsets where its lines begin.
///
/// The source has at most [`MAX_SOURCE_BYTES`](go_ast::MAX_SOURCE_BYTES) bytes. The call fails with
/// `Refused::Fault` exactly where the source has no reading: with `NotUtf8` and the length of the
/// longest prefix that is UTF-8 where it isn't UTF-8; else with the byte offset to which items lead
/// from the start and at which none stands, as `OpenComment` where a general comment without an end
/// begins there, as `OpenString` where a rune or a text without its closing mark does, and else as
/// `BadToken`. It fails with `Refused::NoMemory` where an allocation was refused. (Go
/// specification, "Lexical elements".)
pub fn scan(alloc: Global, source: &[u8]) -> Result<Scanned, Refused>
    requires { length source.now ≤ MAX_SOURCE_BYTES }

    ensures read { IfOk result (λ scanned. Reads source.now scanned.tokens scanned.comments) }
    ensures lines { IfOk result (λ scanned. scanned.lines ≡ line_starts source.now) }
    ensures within { IfOk result (λ scanned. All (IsWithin (length source.now)) scanned.tokens) }
    ensures spelled { IfOk result (λ scanned. AreSpelled source.now scanned.tokens) }
    ensures spans { IfOk result (λ scanned. AreInOrder 0 scanned.tokens (length source.now)) }
    ensures fault { IfErr result (RefusedFor source.now) }

    // A source that has a reading is read so, unless memory runs out.
    ensures found { (tokens : List Token) (comments : List Comment)
        → Reads source.now tokens comments → MatchResult result
        (λ scanned. (scanned.tokens ≡ tokens) × (scanned.comments ≡ comments))
        (λ refused. refused ≡ Refused.NoMemory) }

    // A source that has a fault is refused for it, unless memory runs out.
    ensures refused { (fault : Fault) → ScanFault source.now fault
        → MatchResult result (λ scanned. ⊥) (λ refused. IsRefusedAs fault refused) }
    ensures unread { (fault : Fault) → result ≡ Err (Refused.Fault fault) → ¬ IsRead source.now }
{
    let text = match str::from_utf8(source) {
        Ok(text) => text,
        Err(e) => return Err(Refused::Fault(Fault::NotUtf8(e.valid_up_to() as u32))),
    };
    let Found { tokens, comments } = read(alloc, text)?;
    let lines = line_starts(alloc, source)?;
    Ok(Scanned {
        tokens: Seq::from_vec(tokens),
        comments: Seq::from_vec(comments),
        lines,
    })
}
