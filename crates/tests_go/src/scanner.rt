//! Sources that are too long for a line of a table, or not UTF-8.

use go_ast::{MAX_SOURCE_BYTES, Refused};
use go_scanner::scan;
use std::alloc::{AllocError, Global};
use std::test::Fail;

/// The text of the fault of a source, or the empty text where it has none.
fn fault_of(alloc: Global, source: &[u8]) -> Result<String, AllocError> {
    if source.len() > MAX_SOURCE_BYTES {
        return Ok(String::new(alloc));
    }
    match scan(alloc, source) {
        Err(Refused::Fault(fault)) => format!(in alloc; "{fault}"),
        _ => Ok(String::new(alloc)),
    }
}

#[test]
fn sources_that_are_not_utf8(rt: HostRuntime) -> Result<(), Fail> {
    let cut = fault_of(rt.alloc(), b"package q\n\xFF")?;
    assert!(rt; cut.as_str() == "fault 1: not UTF-8 at byte 10", "{cut}");
    let later = fault_of(rt.alloc(), b"#\xC3")?;
    assert!(rt; later.as_str() == "fault 1: not UTF-8 at byte 1", "{later}");
    Ok(())
}

#[test]
fn largest(rt: HostRuntime) -> Result<(), Fail> {
    for (byte, tokens) in [(b'a', 2), (b';', MAX_SOURCE_BYTES)] {
        let source = vec![in rt.alloc(); byte; MAX_SOURCE_BYTES]?;
        assert!(rt; source.len() <= MAX_SOURCE_BYTES);
        let scanned = scan(rt.alloc(), &source)?;
        assert!(rt; scanned.tokens.len() == tokens, "tokens of {byte}");
        assert!(rt; scanned.lines.len() == 1, "lines of {byte}");
    }
    Ok(())
}
