use go_ast::{Bytes, Seq, Txt};
use godoc_commands::{Status, run};
use link_io::{MemSink, MemSource};
use std::alloc::Global;
use std::sync::Wait;
use std::test::Fail;
use tree_io::MemTree;

/// What a run of `answer` over a tree is given.
#[derive(Clone, Copy)]
struct Given<'a> {
    files: &'a [(&'a str, &'a [u8])],
    input: &'a [u8],
    cuts: &'a [u64],
    failing_calls: &'a [u64],
    failing_reads: &'a [u64],
    failing_writes: &'a [u64],
}

impl<'a> Given<'a> {
    fn input(input: &'a [u8]) -> Given<'a> {
        Given {
            files: &[],
            input,
            cuts: &[],
            failing_calls: &[],
            failing_reads: &[],
            failing_writes: &[],
        }
    }
}

/// A tree of one version, whose calls with these numbers fail.
fn tree_of(alloc: Global, given: Given) -> Result<MemTree, Fail> {
    let mut version = Seq::new(alloc);
    for (path, bytes) in given.files {
        let path = Txt::from_str(alloc, path)?;
        version.push((path, Bytes::from_slice(alloc, bytes)?))?;
    }
    let mut versions = Seq::new(alloc);
    versions.push(version)?;
    let failing = Vec::from_slice(alloc, given.failing_calls)?;
    Ok(MemTree::new(alloc, versions, failing)?)
}

/// How `answer` ended, and what it wrote, by at most 100 bytes a write.
fn answer_to<R: Wait>(rt: &R, alloc: Global, given: Given) -> Result<(Status, Vec<u8>), Fail> {
    let mut words = Vec::new(alloc);
    words.push(String::from_str(alloc, "answer")?)?;
    let mut tree = tree_of(alloc, given)?;
    let mut input = MemSource::new(
        Vec::from_slice(alloc, given.input)?,
        Vec::from_slice(alloc, given.cuts)?,
        Vec::from_slice(alloc, given.failing_reads)?,
    );
    let failing = Vec::from_slice(alloc, given.failing_writes)?;
    let mut out = MemSink::new(alloc, 100, failing);
    let status = run(rt, alloc, words.as_slice(), &mut tree, &mut input, &mut out);
    Ok((status, Vec::from_slice(alloc, out.held())?))
}

/// Several texts as one.
fn joined(alloc: Global, texts: &[&[u8]]) -> Result<Vec<u8>, Fail> {
    let mut all = Vec::new(alloc);
    for text in texts {
        all.extend_from_slice(text)?;
    }
    Ok(all)
}

const LIST_REQUEST: &[u8] = b"GET /pkg/ HTTP/1.1\r\nHost: a\r\n\r\n";

const EMPTY_LIST_HEAD: &[u8] =
    b"HTTP/1.1 200 OK\r\nContent-Type: text/html; charset=utf-8\r\nContent-Length: 131\r\nGodoc-Edition: 1\r\n\r\n";

const EMPTY_LIST: &[u8] =
    b"<!DOCTYPE html>\n<html><head><meta charset=\"utf-8\"><title>Packages</title></head><body>\n<h1>Packages</h1>\n<ul>\n</ul>\n</body></html>\n";

const NOT_FOUND: &[u8] =
    b"HTTP/1.1 404 Not Found\r\nContent-Type: text/html; charset=utf-8\r\nContent-Length: 122\r\nGodoc-Edition: 1\r\n\r\n<!DOCTYPE html>\n<html><head><meta charset=\"utf-8\"><title>Not found</title></head><body>\n<h1>Not found</h1>\n</body></html>\n";

const BAD_TARGET: &[u8] =
    b"HTTP/1.1 400 Bad Request\r\nContent-Type: text/html; charset=utf-8\r\nContent-Length: 126\r\nGodoc-Edition: 1\r\n\r\n<!DOCTYPE html>\n<html><head><meta charset=\"utf-8\"><title>Bad request</title></head><body>\n<h1>Bad request</h1>\n</body></html>\n";

const NOT_ALLOWED: &[u8] =
    b"HTTP/1.1 405 Method Not Allowed\r\nContent-Type: text/html; charset=utf-8\r\nContent-Length: 140\r\nGodoc-Edition: 1\r\nAllow: GET, HEAD\r\n\r\n<!DOCTYPE html>\n<html><head><meta charset=\"utf-8\"><title>Method not allowed</title></head><body>\n<h1>Method not allowed</h1>\n</body></html>\n";

const BAD: &[u8] =
    b"HTTP/1.1 400 Bad Request\r\nContent-Type: text/plain; charset=utf-8\r\nContent-Length: 12\r\nConnection: close\r\n\r\nbad request\n";

#[test]
fn lists_no_package_of_an_empty_tree(rt: HostRuntime) -> Result<(), Fail> {
    let (status, written) = answer_to(&rt, rt.alloc(), Given::input(LIST_REQUEST))?;
    assert!(rt; status == Status::Done);
    let wanted = joined(rt.alloc(), &[EMPTY_LIST_HEAD, EMPTY_LIST])?;
    assert!(rt; written.as_slice() == wanted.as_slice());
    Ok(())
}

#[test]
fn answers_the_same_wherever_the_input_is_cut(rt: HostRuntime) -> Result<(), Fail> {
    let input =
        b"GET /nope HTTP/1.1\r\nHost: a\r\n\r\nHEAD /pkg/ HTTP/1.1\r\nHost: a\r\n\r\n".as_slice();
    let wanted = joined(rt.alloc(), &[NOT_FOUND, EMPTY_LIST_HEAD])?;
    for cut in 0..=input.len() as u64 {
        let given = Given {
            cuts: &[cut],
            ..Given::input(input)
        };
        let (status, written) = answer_to(&rt, rt.alloc(), given)?;
        assert!(rt; status == Status::Done, "cut at {cut}");
        assert!(rt; written.as_slice() == wanted.as_slice(), "cut at {cut}");
    }
    Ok(())
}

#[test]
fn a_bad_target_leaves_the_connection_open(rt: HostRuntime) -> Result<(), Fail> {
    let input =
        b"GET /search HTTP/1.1\r\nHost: a\r\n\r\nGET http://a/pkg HTTP/1.1\r\nHost: a\r\n\r\n";
    let (status, written) = answer_to(&rt, rt.alloc(), Given::input(input.as_slice()))?;
    assert!(rt; status == Status::Done);
    let wanted = joined(rt.alloc(), &[BAD_TARGET, EMPTY_LIST_HEAD, EMPTY_LIST])?;
    assert!(rt; written.as_slice() == wanted.as_slice());
    Ok(())
}

#[test]
fn version_1_0_closes_after_its_reply(rt: HostRuntime) -> Result<(), Fail> {
    let input = b"GET /pkg/ HTTP/1.0\r\n\r\nGET /pkg/ HTTP/1.0\r\n\r\n".as_slice();
    let (status, written) = answer_to(&rt, rt.alloc(), Given::input(input))?;
    assert!(rt; status == Status::Done);
    let wanted = joined(
        rt.alloc(),
        &[
            &EMPTY_LIST_HEAD[..EMPTY_LIST_HEAD.len() - 2],
            b"Connection: close\r\n\r\n",
            EMPTY_LIST,
        ],
    )?;
    assert!(rt; written.as_slice() == wanted.as_slice());
    Ok(())
}

#[test]
fn refuses_what_cannot_be_a_request(rt: HostRuntime) -> Result<(), Fail> {
    let letters = [b'a'; 8_192];
    for input in [
        letters.as_slice(),
        b"GET / HT".as_slice(),
        b"GET / HTTP/1.1\r\n\r\n".as_slice(),
    ] {
        let (status, written) = answer_to(&rt, rt.alloc(), Given::input(input))?;
        assert!(rt; status == Status::Done);
        assert!(rt; written.as_slice() == BAD);
    }
    Ok(())
}

#[test]
fn allows_two_methods(rt: HostRuntime) -> Result<(), Fail> {
    let input = b"POST / HTTP/1.1\r\nHost: a\r\n\r\nPOST /pkg/ HTTP/1.1\r\nHost: a\r\n\r\n";
    let (status, written) = answer_to(&rt, rt.alloc(), Given::input(input.as_slice()))?;
    assert!(rt; status == Status::Done);
    let wanted = joined(rt.alloc(), &[NOT_ALLOWED, NOT_ALLOWED])?;
    assert!(rt; written.as_slice() == wanted.as_slice());
    Ok(())
}

#[test]
fn closes_after_a_thousand_replies(rt: HostRuntime) -> Result<(), Fail> {
    let alloc = rt.alloc();
    let mut input = Vec::new(alloc);
    for _ in 0..1_001 {
        input.extend_from_slice(LIST_REQUEST)?;
    }
    let mut wanted = Vec::new(alloc);
    for _ in 0..999 {
        wanted.extend_from_slice(EMPTY_LIST_HEAD)?;
        wanted.extend_from_slice(EMPTY_LIST)?;
    }
    let last =
        b"HTTP/1.1 200 OK\r\nContent-Type: text/html; charset=utf-8\r\nContent-Length: 131\r\nGodoc-Edition: 1\r\nConnection: close\r\n\r\n";
    wanted.extend_from_slice(last)?;
    wanted.extend_from_slice(EMPTY_LIST)?;
    let (status, written) = answer_to(&rt, rt.alloc(), Given::input(input.as_slice()))?;
    assert!(rt; status == Status::Done);
    assert!(rt; written.as_slice() == wanted.as_slice());
    Ok(())
}

#[test]
fn lists_the_folders_that_name_a_package(rt: HostRuntime) -> Result<(), Fail> {
    let files: [(&str, &[u8]); 11] = [
        ("z.go", b"// comment\npackage main\nvar x = 1\n"),
        ("net/http/a.go", b"package http\n"),
        ("net/http/b.go", b"package http"),
        ("net/url/u.go", b"package url"),
        ("net-x/n.go", b"package x"),
        ("a b&c/é/d.go", b"package d"),
        ("faulty/f.go", b"package f\nvar x = 08"),
        ("blank/b.go", b"package _"),
        ("other/o.go", b"import p"),
        ("short/s.go", b"package"),
        ("text/t.go", b"\"package\" p"),
    ];
    let given = Given {
        files: &files,
        ..Given::input(LIST_REQUEST)
    };
    let (status, written) = answer_to(&rt, rt.alloc(), given)?;
    assert!(rt; status == Status::Done);
    let page =
        b"HTTP/1.1 200 OK\r\nContent-Type: text/html; charset=utf-8\r\nContent-Length: 405\r\nGodoc-Edition: 1\r\n\r\n<!DOCTYPE html>\n<html><head><meta charset=\"utf-8\"><title>Packages</title></head><body>\n<h1>Packages</h1>\n<ul>\n<li><a href=\"/pkg/_/\">_</a></li>\n<li><a href=\"/pkg/a%20b%26c/%C3%A9/\">a b&amp;c/\xc3\xa9</a></li>\n<li><a href=\"/pkg/net-x/\">net-x</a></li>\n<li><a href=\"/pkg/net/http/\">net/http</a></li>\n<li><a href=\"/pkg/net/url/\">net/url</a></li>\n</ul>\n<p><a href=\"/faults\">5 files with faults</a></p>\n</body></html>\n";
    assert!(rt; written.as_slice() == page.as_slice());
    Ok(())
}

#[test]
fn tells_which_part_failed(rt: HostRuntime) -> Result<(), Fail> {
    let (none, first, second): (&[u64], &[u64], &[u64]) = (&[], &[1], &[2]);
    for (failing_calls, failing_reads, failing_writes, wanted, length) in [
        (first, none, none, Status::TreeFault, 0),
        (second, none, none, Status::TreeFault, 0),
        (none, first, none, Status::ReadFault, 0),
        (none, second, none, Status::ReadFault, 229),
        (none, none, first, Status::WriteFault, 0),
        (none, none, second, Status::WriteFault, 100),
    ] {
        let given = Given {
            failing_calls,
            failing_reads,
            failing_writes,
            ..Given::input(LIST_REQUEST)
        };
        let (status, written) = answer_to(&rt, rt.alloc(), given)?;
        assert!(rt; status == wanted);
        assert!(rt; written.len() == length);
    }
    Ok(())
}

/// The reply that has a fault page with this list.
fn fault_reply(alloc: Global, list: &[u8]) -> Result<Vec<u8>, Fail> {
    let page = joined(
        alloc,
        &[
            b"<!DOCTYPE html>\n<html><head><meta charset=\"utf-8\"><title>Faults</title></head><body>\n<h1>Faults</h1>\n<ul>\n",
            list,
            b"</ul>\n</body></html>\n",
        ],
    )?;
    let length = format!(in alloc; "{}", page.len())?;
    joined(
        alloc,
        &[
            b"HTTP/1.1 200 OK\r\nContent-Type: text/html; charset=utf-8\r\nContent-Length: ",
            length.as_bytes(),
            b"\r\nGodoc-Edition: 1\r\n\r\n",
            page.as_slice(),
        ],
    )
}

const FAULTS_REQUEST: &[u8] = b"GET /faults HTTP/1.1\r\nHost: a\r\n\r\n";

#[test]
fn lists_the_files_with_faults(rt: HostRuntime) -> Result<(), Fail> {
    let files: [(&str, &[u8]); 5] = [
        ("q/a.go", b"package q\nfunc {\n}\n"),
        ("q/b.go", b"package q\n\xff"),
        ("q/c.go", b"package q\n"),
        ("q/d.go", b"package q\n"),
        ("q/e.go", b"package r\n"),
    ];
    let four =
        b"<li><a href=\"/src/q/a.go\">q/a.go</a>: fault 7: bad declaration 2 at line 2</li>\n<li>q/b.go: fault 1: not UTF-8 at byte 10</li>\n<li>q/c.go: fault 12: unread</li>\n";
    let fifth =
        b"<li><a href=\"/src/q/e.go\">q/e.go</a>: fault 8: package r beside another package</li>\n";
    for (count, more) in [(4, b"".as_slice()), (5, fifth)] {
        let given = Given {
            files: &files[..count],
            failing_calls: &[5],
            ..Given::input(FAULTS_REQUEST)
        };
        let (status, written) = answer_to(&rt, rt.alloc(), given)?;
        assert!(rt; status == Status::Done);
        let list = joined(rt.alloc(), &[four, more])?;
        let wanted = fault_reply(rt.alloc(), list.as_slice())?;
        assert!(rt; written.as_slice() == wanted.as_slice());
    }
    Ok(())
}

#[test]
fn lists_each_kind_of_fault(rt: HostRuntime) -> Result<(), Fail> {
    let large = vec![in rt.alloc(); b'\n'; 4_194_305]?;
    let files: [(&str, &[u8]); 9] = [
        ("a <&>.go", b"package q\nvar x = 08"),
        ("b.go", b"package q /* x"),
        ("c.go", b"package q; var s = \"x"),
        ("d.go", b"package q\nfunc f() {"),
        ("e.go", b"import \"x\""),
        ("f.go", large.as_slice()),
        ("g.go", b"package q\n"),
        ("h.go", b"//go:build (a\npackage q"),
        ("i.go", b"package r"),
    ];
    let given = Given {
        files: &files,
        failing_calls: &[9],
        ..Given::input(FAULTS_REQUEST)
    };
    let (status, written) = answer_to(&rt, rt.alloc(), given)?;
    assert!(rt; status == Status::Done);
    let list =
        b"<li><a href=\"/src/a%20%3C%26%3E.go\">a &lt;&amp;&gt;.go</a>: fault 2: bad token at byte 18</li>\n<li><a href=\"/src/b.go\">b.go</a>: fault 3: open comment at byte 10</li>\n<li><a href=\"/src/c.go\">c.go</a>: fault 4: open string at byte 19</li>\n<li><a href=\"/src/d.go\">d.go</a>: fault 5: unbalanced at byte 19</li>\n<li><a href=\"/src/e.go\">e.go</a>: fault 6: no package clause</li>\n<li>f.go: fault 11: file too large</li>\n<li>g.go: fault 12: unread</li>\n<li><a href=\"/src/h.go\">h.go</a>: fault 13: bad build line 1</li>\n";
    let wanted = fault_reply(rt.alloc(), list)?;
    assert!(rt; written.as_slice() == wanted.as_slice());
    Ok(())
}

#[test]
fn lists_no_fault_where_there_is_none(rt: HostRuntime) -> Result<(), Fail> {
    let (status, written) = answer_to(&rt, rt.alloc(), Given::input(FAULTS_REQUEST))?;
    assert!(rt; status == Status::Done);
    let wanted = fault_reply(rt.alloc(), b"")?;
    assert!(rt; written.as_slice() == wanted.as_slice());
    Ok(())
}
