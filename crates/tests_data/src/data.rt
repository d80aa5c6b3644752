use plain_data::{Bytes, FaultCount, IoFail, NumberedCalls, Seq, Txt};
use std::io;
use std::io::ErrorKind;
use std::test::Fail;

#[test]
fn sequences_keep_their_order(rt: HostRuntime) -> Result<(), Fail> {
    let mut numbers = Seq::new(rt.alloc());
    assert!(rt; numbers.is_empty());
    numbers.push(7u32)?;
    numbers.push(8)?;
    numbers.push(9)?;
    assert!(rt; numbers.len() == 3);
    assert!(rt; numbers.as_slice() == [7, 8, 9].as_slice());
    assert!(rt; numbers.get(1).copied() == Some(8));
    assert!(rt; numbers.get(3).copied() == None);
    assert!(rt; numbers.pop() == Some(9));
    let again = Seq::from_vec(numbers.into_vec());
    assert!(rt; again.as_slice() == [7, 8].as_slice());
    Ok(())
}

#[test]
fn texts_and_bytes_are_kept(rt: HostRuntime) -> Result<(), Fail> {
    let text = Txt::from_str(rt.alloc(), "gö")?;
    assert!(rt; text.as_str() == "gö");
    let text = Txt::from_string(text.into_string());
    assert!(rt; text.as_str() == "gö");
    let bytes = Bytes::from_slice(rt.alloc(), b"ab")?;
    let bytes = Bytes::from_vec(bytes.into_vec());
    assert!(rt; bytes.as_slice() == b"ab".as_slice());
    Ok(())
}

#[test]
fn calls_fail_by_their_numbers(rt: HostRuntime) -> Result<(), Fail> {
    let mut calls = NumberedCalls::new([4, 2].to_vec(rt.alloc())?);
    let mut faults = FaultCount::new();
    for fails in [false, true, false, true, false] {
        assert!(rt; calls.next_fails() == fails);
        if fails {
            faults.add_one();
        }
    }
    assert!(rt; faults.get() == 2);
    Ok(())
}

#[test]
fn an_error_of_the_system_is_a_failure_or_want_of_memory(rt: HostRuntime) {
    for (kind, fail) in [
        (ErrorKind::OutOfMemory, IoFail::NoMemory),
        (ErrorKind::NotFound, IoFail::Failed),
        (ErrorKind::Interrupted, IoFail::Failed),
        (ErrorKind::InvalidFilename, IoFail::Failed),
    ] {
        assert!(rt; IoFail::from(io::Error::from(kind)) == fail);
    }
}
