//! The answers to the questions on a source.

use crate::declarations::{push_decl, tokens_of};
use crate::types::{push_range, push_span, push_type};
use go_ast::{
    Comment, File, MAX_SOURCE_BYTES, Refused, Scanned, Token, TokenKind, TokenRange, TypeExpr,
};
use go_parser::parse_file;
use go_scanner::scan;
use plain_data::Mem;
use std::alloc::Global;
use type_parser::parse_type;

fn scanned(alloc: Global, source: &str) -> Result<Scanned, Refused> {
    if source.len() <= MAX_SOURCE_BYTES {
        scan(alloc, source.as_bytes())
    } else {
        Err(Refused::NoMemory)
    }
}

/// The fault of a source, as a line shows it.
fn refusal(alloc: Global, refused: &Refused) -> Mem<String> {
    match refused {
        Refused::Fault(fault) => Ok(format!(in alloc; "{fault}")?),
        Refused::NoMemory => Ok(String::from_str(alloc, "out of memory")?),
    }
}

fn push_token(line: &mut String, alloc: Global, token: &Token) -> Mem<()> {
    let Token { kind, span } = token;
    let shown = format!(in alloc; "{kind:?} {}-{}", span.start, span.end)?;
    line.push_str(shown.as_str())?;
    Ok(())
}

fn shown_tokens(alloc: Global, tokens: &[Token]) -> Mem<String> {
    let mut line = String::new(alloc);
    if tokens.is_empty() {
        line.push_str("none")?;
    }
    for (i, token) in tokens.iter().enumerate() {
        if i > 0 {
            line.push_str(", ")?;
        }
        push_token(&mut line, alloc, token)?;
    }
    Ok(line)
}

/// The tokens of a source, or its fault.
pub fn tokens(alloc: Global, source: &str) -> Mem<String> {
    match scanned(alloc, source) {
        Ok(scanned) => shown_tokens(alloc, scanned.tokens.as_slice()),
        Err(refused) => refusal(alloc, &refused),
    }
}

fn push_comment(line: &mut String, alloc: Global, comment: &Comment) -> Mem<()> {
    let mark = if comment.general { "/*" } else { "//" };
    let span = comment.span;
    let shown = format!(in alloc; "{mark}{}-{} ", span.start, span.end)?;
    line.push_str(shown.as_str())?;
    Ok(())
}

fn push_lines(line: &mut String, alloc: Global, starts: &[u32]) -> Mem<()> {
    line.push_str("lines")?;
    for start in starts {
        let shown = format!(in alloc; " {start}")?;
        line.push_str(shown.as_str())?;
    }
    Ok(())
}

/// The comments of a source, and where its lines begin.
pub fn places(alloc: Global, source: &str) -> Mem<String> {
    match scanned(alloc, source) {
        Ok(scanned) => {
            let mut line = String::new(alloc);
            for comment in scanned.comments.as_slice() {
                push_comment(&mut line, alloc, comment)?;
            }
            push_lines(&mut line, alloc, scanned.lines.as_slice())?;
            Ok(line)
        }
        Err(refused) => refusal(alloc, &refused),
    }
}

/// The kind of the second token of a source.
pub fn second(alloc: Global, source: &str) -> Mem<String> {
    match scanned(alloc, source) {
        Ok(scanned) => match scanned.tokens.get(1) {
            Some(token) => Ok(format!(in alloc; "{:?}", token.kind)?),
            None => Ok(String::from_str(alloc, "none")?),
        },
        Err(refused) => refusal(alloc, &refused),
    }
}

/// How many tokens stand before the semicolon that ends a line.
fn count_before_end(tokens: &[Token]) -> usize {
    match tokens {
        [front @ .., last] if last.kind == TokenKind::AutoSemi => front.len(),
        _ => tokens.len(),
    }
}

/// The type of all tokens but the semicolon that ends the line.
fn type_of(alloc: Global, source: &str, scanned: &Scanned) -> Mem<Option<TypeExpr>> {
    let count = count_before_end(scanned.tokens.as_slice());
    let Ok(after) = u32::try_from(count) else {
        return Ok(None);
    };
    if scanned.tokens.len() < after as usize {
        return Ok(None);
    }
    let range = TokenRange { first: 0, after };
    parse_type(alloc, scanned, source.as_bytes(), range)
}

/// The type that a source is.
pub fn typ(alloc: Global, source: &str) -> Mem<String> {
    match scanned(alloc, source) {
        Ok(scanned) => match type_of(alloc, source, &scanned)? {
            Some(typ) => {
                let mut line = String::new(alloc);
                push_type(&mut line, source, &typ)?;
                Ok(line)
            }
            None => Ok(String::from_str(alloc, "none")?),
        },
        Err(refused) => refusal(alloc, &refused),
    }
}

fn parsed(alloc: Global, source: &str) -> Result<File, Refused> {
    if source.len() <= MAX_SOURCE_BYTES {
        let scanned = scan(alloc, source.as_bytes())?;
        parse_file(alloc, source.as_bytes(), &scanned)
    } else {
        Err(Refused::NoMemory)
    }
}

fn shown_file(alloc: Global, source: &str, file: &File) -> Mem<String> {
    let mut line = String::from_str(alloc, "package ")?;
    push_span(&mut line, source, file.package)?;
    for decl in file.decls.as_slice() {
        line.push_str("; ")?;
        push_range(&mut line, tokens_of(decl))?;
        line.push_str(" ")?;
        push_decl(&mut line, source, decl)?;
    }
    Ok(line)
}

/// The file that a source is, or its fault.
pub fn file(alloc: Global, source: &str) -> Mem<String> {
    match parsed(alloc, source) {
        Ok(file) => shown_file(alloc, source, &file),
        Err(refused) => refusal(alloc, &refused),
    }
}

fn shown_decls(alloc: Global, source: &str, file: &File) -> Mem<String> {
    let mut line = String::new(alloc);
    for (i, decl) in file.decls.as_slice().iter().enumerate() {
        if i > 0 {
            line.push_str("; ")?;
        }
        push_decl(&mut line, source, decl)?;
    }
    Ok(line)
}

/// The declaration that a text is after a package clause, or the fault of the file.
pub fn decl(alloc: Global, text: &str) -> Mem<String> {
    let source = format!(in alloc; "package p\n{text}\n")?;
    match parsed(alloc, source.as_str()) {
        Ok(file) => shown_decls(alloc, source.as_str(), &file),
        Err(refused) => refusal(alloc, &refused),
    }
}
