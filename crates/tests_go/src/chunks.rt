//! Chunks of texts whose tokens stand one blank apart.

use go_ast::{Mem, Seq, Span, Token, TokenKind, TokenRange};
use go_parser::{Chunk, Cut, chunks_of};
use std::alloc::Global;
use std::process::Abort;
use std::test::Fail;

fn kind_of(text: &str) -> TokenKind {
    match text {
        "func" | "package" | "var" => TokenKind::Keyword,
        ";" => TokenKind::Semi,
        "auto" => TokenKind::AutoSemi,
        "(" | ")" | "[" | "]" | "{" | "}" => TokenKind::Operator,
        _ => TokenKind::Ident,
    }
}

fn chunk(first: u32, after: u32, opened: Option<u32>) -> Chunk {
    Chunk {
        tokens: TokenRange { first, after },
        opened,
    }
}

/// What a text is cut into.
fn cut(alloc: Global, text: &str) -> Mem<Option<Cut>> {
    let mut tokens = Seq::new(alloc);
    let mut start = 0u32;
    for part in text.split(' ') {
        let end = start.saturating_add(u32::try_from(part.len()).unwrap_or(0));
        tokens.push(Token {
            kind: kind_of(part),
            span: Span { start, end },
        })?;
        start = end.saturating_add(1);
    }
    if tokens.len() < 1000 {
        Ok(Some(chunks_of(alloc, text.as_bytes(), tokens.as_slice())?))
    } else {
        Ok(None)
    }
}

#[test]
fn semicolons_outside_brackets_cut(rt: HostRuntime) -> Result<(), Fail> {
    match cut(
        rt.alloc(),
        "package p ; var x int ; func f ( ) { a ; b } auto",
    )? {
        Some(Cut::Chunks(chunks)) => {
            assert!(rt; chunks.len() == 3);
            assert!(rt; chunks.get(1) == Some(&chunk(3, 6, None)));
            assert!(rt; chunks.get(2) == Some(&chunk(7, 16, Some(11))));
        }
        _ => assert!(rt; false),
    }
    Ok(())
}

#[test]
fn empty_chunks_are_dropped(rt: HostRuntime) -> Result<(), Fail> {
    match cut(rt.alloc(), "; auto a ; ; b")? {
        Some(Cut::Chunks(chunks)) => {
            assert!(rt; chunks.len() == 2);
            assert!(rt; chunks.get(1) == Some(&chunk(5, 6, None)));
        }
        _ => assert!(rt; false),
    }
    Ok(())
}

#[test]
fn the_first_bracket_that_does_not_match_is_named(rt: HostRuntime) -> Result<(), Fail> {
    for (text, offset) in [
        ("( [ ) ]", 4u32),
        ("a )", 2),
        ("( ] [", 2),
        ("a ( b ;", 2),
        ("{ ( )", 0),
        ("( ) } {", 4),
    ] {
        match cut(rt.alloc(), text)? {
            Some(Cut::Unbalanced(found)) => assert!(rt; found == offset, "{text}"),
            _ => assert!(rt; false, "{text}"),
        }
    }
    Ok(())
}

/// Adds a bracket this many times, from an offset on.
fn add(tokens: &mut Seq<Token>, offset: u32, count: u32) -> Mem<()> {
    for place in 0..count {
        let start = offset.saturating_add(place);
        tokens.push(Token {
            kind: TokenKind::Operator,
            span: Span {
                start,
                end: start.saturating_add(1),
            },
        })?;
    }
    Ok(())
}

#[test]
fn half_a_million_brackets_nest(rt: HostRuntime) -> Result<(), Fail> {
    let mut text = String::new(rt.alloc());
    for _ in 0..500_000 {
        text.push_str("(")?;
    }
    for _ in 0..500_000 {
        text.push_str(")")?;
    }
    let mut tokens = Seq::new(rt.alloc());
    add(&mut tokens, 0, 1_000_000)?;
    assert!(rt; tokens.len() == 1_000_000);
    match chunks_of(rt.alloc(), text.as_bytes(), tokens.as_slice())? {
        Cut::Chunks(chunks) => assert!(rt; chunks.get(0) == Some(&chunk(0, 1_000_000, Some(0)))),
        Cut::Unbalanced(_) => assert!(rt; false),
    }
    Ok(())
}

#[test]
fn of_a_million_open_brackets_the_first_is_named(rt: HostRuntime) -> Result<(), Fail> {
    let mut text = String::new(rt.alloc());
    text.push_str("package p\n")?;
    for _ in 0..1_000_000 {
        text.push_str("(")?;
    }
    let mut tokens = Seq::new(rt.alloc());
    add(&mut tokens, 10, 1_000_000)?;
    assert!(rt; tokens.len() == 1_000_000);
    match chunks_of(rt.alloc(), text.as_bytes(), tokens.as_slice())? {
        Cut::Unbalanced(offset) => assert!(rt; offset == 10),
        Cut::Chunks(_) => assert!(rt; false),
    }
    Ok(())
}
