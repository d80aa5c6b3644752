//! Words of texts whose tokens stand one blank apart, and the deepest types.

use go_ast::{Mark, Mem, Scanned, Seq, Span, Token, TokenKind, TokenRange, TypeExpr};
use std::alloc::{AllocError, Global};
use std::test::Fail;
use type_parser::{MatchedWords, matched_words, parse_type, word_at};

/// The kind of a token of a type.
fn kind_of(text: &str) -> TokenKind {
    if text == "func" {
        return TokenKind::Keyword;
    }
    match text.as_bytes().first() {
        Some(b'a'..=b'z' | b'A'..=b'Z') => TokenKind::Ident,
        _ => TokenKind::Operator,
    }
}

fn scanned(alloc: Global, text: &str) -> Mem<Scanned> {
    let mut tokens = Seq::new(alloc);
    let mut start = 0u32;
    for part in text.split(' ') {
        let end = start.saturating_add(u32::try_from(part.len()).unwrap_or(0));
        tokens.push(Token {
            kind: kind_of(part),
            span: Span { start, end },
        })?;
        start = end.saturating_add(1);
    }
    Ok(Scanned {
        tokens,
        comments: Seq::new(alloc),
        lines: Seq::new(alloc),
    })
}

fn range(first: u32, after: u32) -> TokenRange {
    TokenRange { first, after }
}

/// The type that all tokens of a text spell.
fn parsed(alloc: Global, text: &str) -> Mem<Option<TypeExpr>> {
    let scanned = scanned(alloc, text)?;
    let Ok(after) = u32::try_from(scanned.tokens.len()) else {
        return Ok(None);
    };
    let all = TokenRange { first: 0, after };
    parse_type(alloc, &scanned, text.as_bytes(), all)
}

/// Some of these tokens, then a name.
fn nested(alloc: Global, opening: &str, count: usize, closing: &str) -> Result<String, AllocError> {
    let mut text = String::new(alloc);
    for _ in 0..count {
        text.push_str(opening)?;
    }
    text.push_str("T")?;
    for _ in 0..count {
        text.push_str(closing)?;
    }
    Ok(text)
}

#[test]
fn two_hundred_levels_are_the_most(rt: HostRuntime) -> Result<(), Fail> {
    for (opening, closing) in [("* ", ""), ("( ", " )"), ("func ( a ", " )")] {
        let most = nested(rt.alloc(), opening, 199, closing)?;
        assert!(rt; parsed(rt.alloc(), most.as_str())?.is_some(), "{opening}");
        let more = nested(rt.alloc(), opening, 200, closing)?;
        assert!(rt; parsed(rt.alloc(), more.as_str())?.is_none(), "{opening}");
    }
    Ok(())
}

/// The words of all tokens of a text.
fn words(alloc: Global, text: &str) -> Mem<MatchedWords> {
    let scanned = scanned(alloc, text)?;
    let tokens = scanned.tokens.as_slice();
    let after = u32::try_from(tokens.len()).unwrap_or(0);
    let all = TokenRange { first: 0, after };
    matched_words(alloc, text.as_bytes(), tokens, all)
}

#[test]
fn words_are_cut_at_separators_outside_brackets(rt: HostRuntime) -> Result<(), Fail> {
    let words = words(rt.alloc(), "f ( a = b ) = c = d")?;
    let all = words.all();
    match all.split_once(Mark::Equal) {
        Some((front, back)) => {
            assert!(rt; front.range() == range(0, 6));
            assert!(rt; back.range() == range(7, 10));
            assert!(rt; back.split_once(Mark::Comma).is_none());
        }
        None => assert!(rt; false),
    }
    if !all.is_empty() {
        let (piece, rest) = all.split_piece(Mark::Equal);
        assert!(rt; piece.range() == range(0, 6));
        assert!(rt; rest.range() == range(7, 10));
    }
    Ok(())
}

#[test]
fn words_are_cut_at_their_ends(rt: HostRuntime) -> Result<(), Fail> {
    let words = words(rt.alloc(), "( a ) b")?;
    let all = words.all();
    match all.enclosed(Mark::CloseParen) {
        Some((inner, after)) => {
            assert!(rt; inner.range() == range(1, 2));
            assert!(rt; after.range() == range(3, 4));
        }
        None => assert!(rt; false),
    }
    assert!(rt; all.alone(Mark::CloseParen).is_none());
    match all.split_first() {
        Some((first, _)) => assert!(rt; first.mark == Mark::OpenParen),
        None => assert!(rt; false),
    }
    match all.split_last() {
        Some((front, last)) => {
            assert!(rt; front.alone(Mark::CloseParen).is_some());
            assert!(rt; last.tokens == range(3, 4));
        }
        None => assert!(rt; false),
    }
    Ok(())
}

#[test]
fn a_token_is_a_word_at_its_place(rt: HostRuntime) -> Result<(), Fail> {
    let scanned = scanned(rt.alloc(), "a . b")?;
    assert!(rt; 1 < scanned.tokens.len());
    let word = word_at(b"a . b", scanned.tokens.as_slice(), 1);
    assert!(rt; word.mark == Mark::Dot);
    assert!(rt; word.span == (Span { start: 2, end: 3 }));
    Ok(())
}
