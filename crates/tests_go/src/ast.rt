use go_ast::{Config, Fault, Mem, Seq, Shared, Txt, copy_config, copy_fault};
use std::alloc::Global;
use std::test::Fail;

#[test]
fn faults_are_told_with_their_numbers(rt: HostRuntime) -> Result<(), Fail> {
    let other = Fault::OtherPackage(Txt::from_str(rt.alloc(), "r")?);
    for (fault, text) in [
        (Fault::NotUtf8(10), "fault 1: not UTF-8 at byte 10"),
        (Fault::BadToken(0), "fault 2: bad token at byte 0"),
        (Fault::OpenComment(3), "fault 3: open comment at byte 3"),
        (Fault::OpenString(4), "fault 4: open string at byte 4"),
        (Fault::Unbalanced(5), "fault 5: unbalanced at byte 5"),
        (Fault::NoPackageClause, "fault 6: no package clause"),
        (
            Fault::BadDeclaration(2, 2),
            "fault 7: bad declaration 2 at line 2",
        ),
        (other, "fault 8: package r beside another package"),
        (Fault::FileTooLarge, "fault 11: file too large"),
        (Fault::Unread, "fault 12: unread"),
        (Fault::BadBuildLine(1), "fault 13: bad build line 1"),
    ] {
        let told = format!(in rt.alloc(); "{fault}")?;
        assert!(rt; told.as_str() == text, "{told}");
    }
    Ok(())
}

/// The list of one thing.
fn one<T: Drop>(alloc: Global, only: T) -> Mem<Seq<T>> {
    let mut list = Seq::new(alloc);
    list.push(only)?;
    Ok(list)
}

/// A value of which each owner gets the same, also when the others are gone.
#[test]
fn owners_share_a_value(rt: HostRuntime) -> Result<(), Fail> {
    let first = Shared::new(rt.alloc(), Txt::from_str(rt.alloc(), "shared")?)?;
    let second = first.share()?;
    let third = second.share()?;
    drop(first);
    drop(third);
    assert!(rt; second.get().as_str() == "shared");
    Ok(())
}

#[test]
fn copied_faults_are_whole(rt: HostRuntime) -> Result<(), Fail> {
    let fault = Fault::OtherPackage(Txt::from_str(rt.alloc(), "r")?);
    let copied = copy_fault(rt.alloc(), &fault)?;
    let told = format!(in rt.alloc(); "{copied}")?;
    assert!(rt;
        told.as_str() == "fault 8: package r beside another package",
        "{told}"
    );
    Ok(())
}

fn config(alloc: Global) -> Mem<Config> {
    Ok(Config {
        goos: Txt::from_str(alloc, "plan9")?,
        goarch: Txt::from_str(alloc, "arm")?,
        tags: one(alloc, Txt::from_str(alloc, "race")?)?,
        go_minor: 19,
        prefix: Txt::from_str(alloc, "a/b")?,
    })
}

#[test]
fn copied_configurations_are_whole(rt: HostRuntime) -> Result<(), Fail> {
    let config = config(rt.alloc())?;
    let copied = copy_config(rt.alloc(), &config)?;
    let wanted = format!(in rt.alloc(); "{config:?}")?;
    let told = format!(in rt.alloc(); "{copied:?}")?;
    assert!(rt; told.as_str() == wanted.as_str(), "{told}");
    Ok(())
}
