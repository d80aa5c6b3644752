//! The lengths of arrays.

use const_eval::{ConstFact, Constants, Length, length};
use go_ast::{Scanned, Span, Token, TokenKind, TokenRange};
use plain_data::{Mem, Seq, Txt};
use std::alloc::Global;
use std::test::Fail;

/// A constant whose run is this text, cut at spaces.
fn fact(alloc: Global, name: &str, run: &str, iota: u32) -> Mem<ConstFact> {
    let mut value = Seq::new(alloc);
    for text in run.split_whitespace() {
        value.push(Txt::from_str(alloc, text)?)?;
    }
    Ok(ConstFact {
        name: Txt::from_str(alloc, name)?,
        value,
        iota,
    })
}

/// The constants `A = iota; B; N = B + 2` in one group, and some that have no value.
fn constants(alloc: Global) -> Mem<Constants> {
    let mut facts = Vec::new(alloc);
    for (name, run, iota) in [
        ("N", "B + 2", 2),
        ("A", "iota", 0),
        ("B", "iota", 1),
        ("Back", "Forth + 1", 0),
        ("Forth", "Back - 1", 0),
        ("Twice", "1", 0),
        ("Twice", "1", 0),
        ("Nothing", "", 0),
        ("_", "7", 0),
    ] {
        facts.push(fact(alloc, name, run, iota)?)?;
    }
    Constants::make(alloc, facts.as_slice())
}

/// The tokens of a text, cut at spaces. Their kinds don't count.
fn scanned(alloc: Global, text: &str) -> Mem<Scanned> {
    let mut tokens = Seq::new(alloc);
    let mut start: u32 = 0;
    for (place, byte) in text.bytes().enumerate() {
        if byte == b' ' {
            let end = u32::try_from(place).unwrap_or(0);
            tokens.push(token(start, end))?;
            start = end.saturating_add(1);
        }
    }
    tokens.push(token(start, u32::try_from(text.len()).unwrap_or(0)))?;
    Ok(Scanned {
        tokens,
        comments: Seq::new(alloc),
        lines: Seq::new(alloc),
    })
}

fn token(start: u32, end: u32) -> Token {
    let kind = TokenKind::Operator;
    let span = Span { start, end };
    Token { kind, span }
}

/// The length that a whole text is.
fn length_of(alloc: Global, text: &str, consts: &Constants) -> Mem<Length> {
    let scanned = scanned(alloc, text)?;
    let run = TokenRange {
        first: 0,
        after: u32::MAX,
    };
    length(alloc, text.as_bytes(), &scanned, run, consts)
}

/// The length that a whole text is: its number after a word, or the text.
fn shown(alloc: Global, text: &str, consts: &Constants) -> Mem<String> {
    match length_of(alloc, text, consts)? {
        Length::Known(number) => Ok(format!(in alloc; "known {number}")?),
        Length::AsText(text) => Ok(text.into_string()),
    }
}

#[test]
fn runs_with_a_value(rt: HostRuntime) -> Result<(), Fail> {
    let consts = constants(rt.alloc())?;
    for (text, wanted) in [
        ("N * 2", 6),
        ("A", 0),
        ("_", 7),
        ("'a'", 97),
        ("'\\x41' + '\\n'", 75),
        ("0x1_F + 0b11 + 0o17 + 017", 64),
        ("2 + 3 * 4 - 10 / 3", 11),
        ("10 - 4 - 3", 3),
        ("- 7 / 2 + 4", 1),
        ("7 &^ 2", 5),
        ("6 & 3 | 8 ^ 1", 11),
        ("^ 0 & 255", 255),
        ("1 << 126 >> 125", 2),
        ("( 1 + 2 ) * 3", 9),
        ("- - 5", 5),
    ] {
        match length_of(rt.alloc(), text, &consts)? {
            Length::Known(number) => assert!(rt; number == wanted, "{text}"),
            Length::AsText(shown) => assert!(rt; false, "{shown:?}"),
        }
    }
    Ok(())
}

#[test]
fn runs_without_a_value(rt: HostRuntime) -> Result<(), Fail> {
    let consts = constants(rt.alloc())?;
    for text in [
        "1 << 200",
        "len ( x )",
        "0 * X",
        "1 / 0",
        "- 1",
        "1 << 127",
        "1 << 128",
        "170141183460469231731687303715884105728",
        "iota",
        "Back",
        "0 * Forth",
        "Twice",
        "Nothing",
        "1.5",
        "( 1",
        "1 )",
        "1 +",
        "1 2",
    ] {
        let shown = shown(rt.alloc(), text, &consts)?;
        assert!(rt; shown.as_str() == text, "{shown:?}");
    }
    Ok(())
}
