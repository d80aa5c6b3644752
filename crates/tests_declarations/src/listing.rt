//! The order of a package's documentation.

use doc_order::{DocPackage, Member, SpecFact, order};
use plain_data::{Mem, Seq, Txt};
use std::alloc::{AllocError, Global};
use std::test::Fail;

/// `W=A`, a specification of a name with a base name, or `W`, an empty one.
fn spec(alloc: Global, word: &str) -> Mem<SpecFact> {
    let (name, base) = word.split_once('=').unwrap_or((word, ""));
    let mut names = Seq::new(alloc);
    for name in name.split(',') {
        names.push(Txt::from_str(alloc, name)?)?;
    }
    Ok(SpecFact {
        names,
        base: Txt::from_str(alloc, base)?,
        empty: !word.contains('='),
    })
}

fn specs(alloc: Global, words: &str) -> Mem<Seq<SpecFact>> {
    let mut specs = Seq::new(alloc);
    for word in words.split(' ') {
        specs.push(spec(alloc, word)?)?;
    }
    Ok(specs)
}

/// The base names of results, `-` for one that has none.
fn results(alloc: Global, words: &str) -> Mem<Seq<Txt>> {
    let mut bases = Seq::new(alloc);
    for word in words.split(' ') {
        bases.push(Txt::from_str(alloc, if word == "-" { "" } else { word })?)?;
    }
    Ok(bases)
}

/// `const` or `var` and specifications, `type T`, `func F` and results, `method T M`.
fn member(alloc: Global, line: &str) -> Mem<Member> {
    let (kind, rest) = line.split_once(' ').unwrap_or((line, ""));
    let (first, second) = rest.split_once(' ').unwrap_or((rest, ""));
    match kind {
        "type" => Ok(Member::TypeDef {
            name: Txt::from_str(alloc, first)?,
        }),
        "func" => Ok(Member::Func {
            name: Txt::from_str(alloc, first)?,
            results: results(alloc, second)?,
        }),
        "method" => Ok(Member::Method {
            name: Txt::from_str(alloc, second)?,
            base: Txt::from_str(alloc, first)?,
        }),
        _ => Ok(Member::Value {
            constant: kind == "const",
            specs: specs(alloc, rest)?,
        }),
    }
}

fn members(alloc: Global, lines: &str) -> Mem<Vec<Member>> {
    let mut members = Vec::new(alloc);
    for line in lines.split(';') {
        members.push(member(alloc, line)?)?;
    }
    Ok(members)
}

/// The lists: constants, variables and functions, and each type with its constants, variables,
/// factories and methods.
fn lists_of(alloc: Global, doc: &DocPackage) -> Result<String, AllocError> {
    let (consts, vars, funcs) = (
        doc.consts.as_slice(),
        doc.vars.as_slice(),
        doc.funcs.as_slice(),
    );
    let mut text = format!(in alloc; "{consts:?} {vars:?} {funcs:?}")?;
    for it in doc.types.as_slice() {
        let (consts, vars) = (it.consts.as_slice(), it.vars.as_slice());
        let (factories, methods) = (it.factories.as_slice(), it.methods.as_slice());
        let number = it.member;
        let under = format!(in alloc; " {number}: {consts:?} {vars:?} {factories:?} {methods:?}")?;
        text.push_str(under.as_str())?;
    }
    Ok(text)
}

/// The value of three quarters, and the functions by their results, are worked examples.
#[test]
fn each_member_stands_in_its_list(rt: HostRuntime) -> Result<(), Fail> {
    let under = "[] [] [] 0: [1] [] [] []";
    let apart = "[1] [] [] 0: [] [] [] []";
    for (lines, expected) in [
        ("type A;const W=A X=A Y=A Z=", under),
        ("type A;const W=A X=A Y= Z=", apart),
        ("type A;const W=A X=A Y=A Z=int", apart),
        ("type A;const W=A X=A Y=", under),
        ("type A;const W=A X= Y=", apart),
        ("type A;const W=A X=", under),
        ("type A;const W=", apart),
        ("type A;const W=A x=int y=", under),
        ("type A;const w=A X", under),
        ("type A;const W X", apart),
        (
            "type T;type U;func F T -",
            "[] [] [] 0: [] [] [2] [] 1: [] [] [] []",
        ),
        (
            "type T;type U;func G T U",
            "[] [] [2] 0: [] [] [] [] 1: [] [] [] []",
        ),
        ("type T;func H T T", "[] [] [1] 0: [] [] [] []"),
        ("type t;type U;func I t U", "[] [] [] 1: [] [] [2] []"),
        ("type T;func J W;func l T", "[] [] [1] 0: [] [] [] []"),
        ("type t;method t M;method C M", "[] [] []"),
        (
            "type T;method T M;method T m;method T L",
            "[] [] [] 0: [] [] [] [3, 1]",
        ),
        (
            "type B;type A;type A;method A M",
            "[] [] [] 1: [] [] [] [3] 2: [] [] [] [] 0: [] [] [] []",
        ),
        ("func Z;func Y;func Y;func f", "[] [] [1, 2, 0]"),
        (
            "var Q=;var X= Y=;var x= C=;var x,D=;var x=",
            "[] [1, 2, 0, 3] []",
        ),
    ] {
        let members = members(rt.alloc(), lines)?;
        assert!(rt; members.len() < 100);
        let doc = order(rt.alloc(), members.as_slice())?;
        let found = lists_of(rt.alloc(), &doc)?;
        assert!(rt; found.as_str() == expected, "{lines}");
    }
    Ok(())
}
