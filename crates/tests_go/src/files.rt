//! Files that are too long for a line of a table.

use go_ast::{MAX_SOURCE_BYTES, Refused};
use go_parser::parse_file;
use go_scanner::scan;
use std::alloc::{AllocError, Global};
use std::process::Abort;
use std::test::Fail;

/// The file that a source spells, as debug output shows it, or its fault.
fn outcome(rt: &(impl Abort + AllocGlobal), source: &str) -> Result<String, Fail> {
    assert!(rt; source.len() <= MAX_SOURCE_BYTES);
    match scan(rt.alloc(), source.as_bytes()) {
        Ok(scanned) => match parse_file(rt.alloc(), source.as_bytes(), &scanned) {
            Ok(file) => Ok(format!(in rt.alloc(); "{file:?}")?),
            Err(Refused::Fault(fault)) => Ok(format!(in rt.alloc(); "{fault}")?),
            Err(Refused::NoMemory) => Ok(format!(in rt.alloc(); "no memory")?),
        },
        Err(refused) => Ok(format!(in rt.alloc(); "{refused:?}")?),
    }
}

/// A file whose text has some parts `count` times.
fn repeated(
    alloc: Global,
    front: &str,
    count: usize,
    opening: &str,
    middle: &str,
    closing: &str,
) -> Result<String, AllocError> {
    let mut text = String::new(alloc);
    text.push_str(front)?;
    for _ in 0..count {
        text.push_str(opening)?;
    }
    text.push_str(middle)?;
    for _ in 0..count {
        text.push_str(closing)?;
    }
    Ok(text)
}

#[test]
fn a_million_brackets_are_refused(rt: HostRuntime) -> Result<(), Fail> {
    let open = repeated(rt.alloc(), "package p\n", 1_000_000, "(", "", "")?;
    let open = outcome(&rt, open.as_str())?;
    assert!(rt; open.as_str() == "fault 5: unbalanced at byte 10");
    let nested = repeated(rt.alloc(), "package p\n", 500_000, "(", "", ")")?;
    let nested = outcome(&rt, nested.as_str())?;
    assert!(rt; nested.as_str() == "fault 7: bad declaration 2 at line 2");
    Ok(())
}

#[test]
fn two_hundred_levels_of_a_type_are_the_most(rt: HostRuntime) -> Result<(), Fail> {
    let most = repeated(rt.alloc(), "package p\ntype T ", 199, "*", "int\n", "")?;
    let most = outcome(&rt, most.as_str())?;
    assert!(rt; most.as_str().contains("Types("), "{most}");
    let more = repeated(rt.alloc(), "package p\ntype T ", 200, "*", "int\n", "")?;
    let more = outcome(&rt, more.as_str())?;
    assert!(rt; more.as_str() == "fault 7: bad declaration 2 at line 2");
    Ok(())
}
