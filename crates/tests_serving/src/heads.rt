use http_wire::{Heads, Next};
use plain_data::Mem;
use std::alloc::Global;

/// A head of this many bytes, from 32 on.
fn head_of(alloc: Global, len: usize) -> Mem<Vec<u8>> {
    let mut head = Vec::from_slice(alloc, b"GET / HTTP/1.1\r\nHost: a\r\nX: ")?;
    for _ in 32..len {
        head.push(b'x')?;
    }
    head.extend_from_slice(b"\r\n\r\n")?;
    Ok(head)
}

#[test]
fn a_full_reader_takes_more_once_a_head_is_given(rt: HostRuntime) -> Mem<()> {
    let alloc = rt.alloc();
    let head = head_of(alloc, 8_000)?;
    let mut heads = Heads::new(alloc)?;
    assert!(rt; heads.feed(head.as_slice()) == 8_000);
    assert!(rt; heads.feed(head.as_slice()) == 8_000);
    assert!(rt; heads.feed(head.as_slice()) == 384);
    assert!(rt; heads.feed(head.as_slice()) == 0);
    assert!(rt; matches!(heads.next(alloc)?, Next::Head(_)));
    assert!(rt; heads.feed(head.as_slice()) == 8_000);
    assert!(rt; heads.feed(head.as_slice()) == 0);
    assert!(rt; matches!(heads.next(alloc)?, Next::Head(_)));
    assert!(rt; heads.feed(b"more") == 4);
    Ok(())
}
