ghost use Rattle.std.specs.Prelude.{◌≡◌, ◌<◌, ◌≤◌, ◌+◌, All, IfOk, length};
ghost use Rattle.ident_index.specs.Postings.{HasNames};

use go_ast::{
    Decl, Element, Field, File, FuncDecl, Group, ImportName, ImportSpec, MAX_SOURCE_BYTES, Param,
    Receiver, Shared, Signature, Span, Term, TokenRange, TypeExpr, TypeParam, TypeSpec, ValueSpec,
};
use go_scanner::scan;
use ident_index::{Hit, HitFile, Postings, Steps, hits_of, names_of_hits};
use plain_data::{Bytes, Mem, Seq, Txt};
use sqlite_items::Boxed;
use std::alloc::{AllocError, Global};
use std::marker::Brand;
use std::mem::size_of;
use std::process::Abort;
use std::sync::ledger::{Blank, Ledger};
use std::test::Fail;

#[test]
fn a_hit_takes_16_bytes(rt: HostRuntime) {
    assert!(rt; size_of::<Hit>() == 16);
}

/// A file of a package whose name stands at offset 8, with these declarations.
fn file_of(decls: Seq<Decl>) -> File {
    File {
        package: letter(8),
        decls,
    }
}

/// The identifiers of a source with these declarations.
fn hits_in(
    rt: &(impl Abort + AllocGlobal),
    number: u32,
    source: &str,
    decls: Seq<Decl>,
) -> Result<Seq<Hit>, Fail>
    ensures { IfOk result (λ hits. HasNames source.now hits) }
{
    let source = source.as_bytes();
    assert!(rt; source.len() <= MAX_SOURCE_BYTES);
    let scanned = scan(rt.alloc(), source)?;
    let hits = hits_of(rt.alloc(), source, &scanned, &file_of(decls), number)?;
    names_of_hits();
    Ok(hits)
}

/// A source with its identifiers.
#[derive(Drop)]
struct Source {
    text: Bytes,
    hits: Seq<Hit>,
}

fn source_of(rt: &(impl Abort + AllocGlobal), number: u32, text: &str) -> Result<Source, Fail>
    ensures { IfOk result (λ source. HasNames source.text source.hits) }
{
    let hits = hits_in(rt, number, text, Seq::new(rt.alloc()))?;
    let text = Bytes::from_slice(rt.alloc(), text.as_bytes())?;
    Ok(Source { text, hits })
}

/// The identifiers of some sources, each with its number.
fn read_all(rt: &(impl Abort + AllocGlobal), texts: &[(u32, &str)]) -> Result<Vec<Source>, Fail>
    ensures { IfOk result (λ sources. All (λ s. HasNames s.text s.hits) sources.items) }
{
    let mut sources = Vec::new(rt.alloc());
    for (number, text) in texts {
        sources.push(source_of(rt, *number, text)?)?;
    }
    Ok(sources)
}

fn file_from<'s>(source: &'s Source) -> HitFile<'s>
    requires { HasNames source.now.text source.now.hits }
    ensures { HasNames result.source.now result.hits.now }
{
    HitFile {
        source: source.text.as_slice(),
        hits: source.hits.as_slice(),
    }
}

/// The table of some sources.
fn index(alloc: Global, sources: &[Source]) -> Mem<Postings>
    requires { All (λ s. HasNames s.text s.hits) sources.now }
{
    let mut files = Vec::new(alloc);
    for source in sources {
        files.push(file_from(source))?;
    }
    Postings::build(alloc, files.as_slice())
}

/// The table of some texts, each with the number of its file.
fn table_of(rt: &(impl Abort + AllocGlobal), texts: &[(u32, &str)]) -> Result<Postings, Fail> {
    let sources = read_all(rt, texts)?;
    Ok(index(rt.alloc(), sources.as_slice())?)
}

/// The hits of a name, found with at most four looks where there are at most twelve names.
fn find_in_four<'p, L: Ledger>(
    postings: &'p Postings,
    name: &Txt,
    steps: &mut Steps<L>,
) -> &'p [Hit]
    ensures { length postings.now ≤ 12 → steps.new ≤ steps.old + 4 }
{
    postings.find(name.as_str(), steps)
}

fn found_by<'p, L: Ledger>(postings: &'p Postings, name: &Txt, blank: Blank) -> &'p [Hit]
    requires name { blank.name ≡ L.name }
    requires parts { blank.parts ≡ L.parts }
    requires some { 0 < blank.parts }
{
    let mut steps = Steps::<L>::new(blank);
    find_in_four(postings, name, &mut steps)
}

/// The hits of a name.
fn found<'p>(postings: &'p Postings, name: &Txt) -> &'p [Hit] {
    found_by::<Brand>(postings, name, Blank::new(1))
}

/// How many hits a name has.
fn count(alloc: Global, postings: &Postings, name: &str) -> Mem<usize> {
    let name = Txt::from_str(alloc, name)?;
    Ok(found(postings, &name).len())
}

/// The hits of a name, each as its file and its offset.
fn places(alloc: Global, postings: &Postings, name: &str) -> Result<String, AllocError> {
    let name = Txt::from_str(alloc, name).map_err(|_| AllocError)?;
    let mut places = String::new(alloc);
    for hit in found(postings, &name) {
        write!(places, "{}:{} ", hit.file, hit.offset)?;
    }
    Ok(places)
}

#[test]
fn names_are_found_at_both_ends_and_between(rt: HostRuntime) -> Result<(), Fail> {
    let first = "package b\nvar zz, a, é9 = b\n";
    let postings = table_of(&rt, &[(3, first), (5, "package b\nvar zz = b\n")])?;
    assert!(rt; postings.total() == 8);
    for (name, expected) in [
        ("a", "3:18 "),
        ("b", "3:8 3:27 5:8 5:19 "),
        ("zz", "3:14 5:14 "),
        ("é9", "3:21 "),
        ("", ""),
        ("bb", ""),
        ("é99", ""),
    ] {
        let told = places(rt.alloc(), &postings, name)?;
        assert!(rt; told.as_str() == expected);
    }
    Ok(())
}

#[test]
fn words_in_comments_and_texts_are_no_hits(rt: HostRuntime) -> Result<(), Fail> {
    let source = "package e\n// err is here\nvar err, s = f(err), \"err\"\n";
    let postings = table_of(&rt, &[(0, source)])?;
    let told = places(rt.alloc(), &postings, "err")?;
    assert!(rt; told.as_str() == "0:29 0:40 ");
    Ok(())
}

#[test]
fn no_file_has_no_names(rt: HostRuntime) -> Result<(), Fail> {
    let postings = Postings::build(rt.alloc(), &[])?;
    assert!(rt; postings.total() == 0);
    assert!(rt; count(rt.alloc(), &postings, "a")? == 0);
    Ok(())
}

const FIRST: &str = "// Package p00000 is generated.\n\
package p00000\n\
\n\
// I has one method.\n\
type I interface{ M00000() int }\n\
\n\
// T has one field.\n\
type T struct{ F [2]int }\n\
\n\
// M00000 answers a number.\n\
func (t T) M00000() int { return 2 }\n\
\n\
// NewT makes a T.\n\
func NewT() T { return T{} }\n";

const SECOND: &str = "// Package p00001 is generated.\n\
package p00001\n\
\n\
// I has one method.\n\
type I interface{ M00001() int }\n\
\n\
// T has one field.\n\
type T struct{ F [2]int }\n\
\n\
// M00001 answers a number.\n\
func (t T) M00001() int { return 2 }\n\
\n\
// NewT makes a T.\n\
func NewT() T { return T{} }\n";

const THIRD: &str = "// Package p00002 is generated.\n\
package p00002\n\
\n\
// I has one method.\n\
type I interface{ M00002() int }\n\
\n\
// T has one field.\n\
type T struct{ F [1]int }\n\
\n\
// M00002 answers a number.\n\
func (t *T) M00002() int { return 1 }\n\
\n\
// NewT makes a T.\n\
func NewT() T { return T{} }\n";

/// How many hits the generated packages have of each name.
const GENERATED: [(&str, usize); 12] = [
    ("F", 3),
    ("I", 3),
    ("M00000", 2),
    ("M00001", 2),
    ("M00002", 2),
    ("NewT", 3),
    ("T", 12),
    ("int", 9),
    ("p00000", 1),
    ("p00001", 1),
    ("p00002", 1),
    ("t", 3),
];

/// The counts add up to the total, so there are no other names.
#[test]
fn the_generated_packages_have_twelve_names(rt: HostRuntime) -> Result<(), Fail> {
    let postings = table_of(&rt, &[(0, FIRST), (1, SECOND), (2, THIRD)])?;
    assert!(rt; postings.total() == 42);
    for (name, hits) in GENERATED {
        assert!(rt; count(rt.alloc(), &postings, name)? == hits);
    }
    assert!(rt; count(rt.alloc(), &postings, "zzz")? == 0);
    Ok(())
}

/// The name of one letter at an offset.
fn letter(start: u32) -> Span {
    Span {
        start,
        end: start.saturating_add(1),
    }
}

fn letters(alloc: Global, starts: &[u32]) -> Mem<Seq<Span>> {
    let mut spans = Seq::new(alloc);
    for start in starts {
        spans.push(letter(*start))?;
    }
    Ok(spans)
}

fn no_tokens() -> TokenRange {
    TokenRange { first: 0, after: 0 }
}

/// The list of one thing.
fn one<T: Drop>(alloc: Global, only: T) -> Mem<Seq<T>> {
    let mut list = Seq::new(alloc);
    list.push(only)?;
    Ok(list)
}

/// The list of two things.
fn two<T: Drop>(alloc: Global, first: T, last: T) -> Mem<Seq<T>> {
    let mut list = Seq::new(alloc);
    list.push(first)?;
    list.push(last)?;
    Ok(list)
}

fn named(alloc: Global, start: u32) -> TypeExpr {
    TypeExpr::Name {
        qualifier: None,
        name: letter(start),
        args: Seq::new(alloc),
    }
}

fn field(alloc: Global, names: &[u32], typ: u32) -> Mem<Field> {
    Ok(Field {
        tokens: no_tokens(),
        names: letters(alloc, names)?,
        typ: named(alloc, typ),
        tag: None,
    })
}

fn parameter(alloc: Global, name: u32, typ: TypeExpr) -> Mem<Param> {
    Ok(Param {
        name: Some(letter(name)),
        typ: Shared::new(alloc, typ)?,
        variadic: false,
        shares: false,
    })
}

fn term(alloc: Global, typ: u32) -> Term {
    Term {
        tilde: false,
        typ: named(alloc, typ),
    }
}

fn group<S: Drop>(alloc: Global, spec: S) -> Mem<Group<S>> {
    Ok(Group {
        tokens: no_tokens(),
        grouped: false,
        specs: one(alloc, spec)?,
    })
}

fn import(alloc: Global, local: ImportName) -> Mem<Decl> {
    let spec = ImportSpec {
        tokens: no_tokens(),
        local,
        path: letter(0),
    };
    Ok(Decl::Import(group(alloc, spec)?))
}

fn values(alloc: Global, names: &[u32], typ: TypeExpr) -> Mem<ValueSpec> {
    Ok(ValueSpec {
        tokens: no_tokens(),
        names: letters(alloc, names)?,
        typ: Some(typ),
        value: None,
    })
}

/// The line, the offset and the kind of each identifier of a file.
fn kinds_in(
    rt: &(impl Abort + AllocGlobal),
    source: &str,
    decls: Seq<Decl>,
) -> Result<String, Fail> {
    let mut told = String::new(rt.alloc());
    for hit in hits_in(rt, 7, source, decls)?.as_slice() {
        assert!(rt; hit.file == 7);
        write!(told, "{}:{} {:?} ", hit.line, hit.offset, hit.kind)?;
    }
    Ok(told)
}

#[test]
fn packages_imports_and_values_are_declared(rt: HostRuntime) -> Result<(), Fail> {
    let alloc = rt.alloc();
    let source = "package p\nimport q \"a\"\nimport . \"b\"\nconst A, B T = C, 1\nvar v D\n";
    let mut decls = Seq::new(alloc);
    decls.push(import(alloc, ImportName::Named(letter(17)))?)?;
    decls.push(import(alloc, ImportName::Dot)?)?;
    let constants = values(alloc, &[42, 45], named(alloc, 47))?;
    decls.push(Decl::Const(group(alloc, constants)?))?;
    let variable = values(alloc, &[60], named(alloc, 62))?;
    decls.push(Decl::Var(group(alloc, variable)?))?;
    let told = kinds_in(&rt, source, decls)?;
    assert!(rt;
        told.as_str()
            == "1:8 PackageName 2:17 ImportName 4:42 ConstName 4:45 ConstName 4:47 Usage 4:51 Usage \
         5:60 VarName 5:62 Usage "
    );
    Ok(())
}

fn type_decl(alloc: Global, name: u32, params: Seq<TypeParam>, typ: TypeExpr) -> Mem<Decl> {
    let spec = TypeSpec {
        tokens: no_tokens(),
        name: letter(name),
        params,
        alias: false,
        typ,
    };
    Ok(Decl::Types(group(alloc, spec)?))
}

#[test]
fn fields_and_methods_of_types_are_declared(rt: HostRuntime) -> Result<(), Fail> {
    let alloc = rt.alloc();
    let source = "package p\ntype T[P E] struct { x, y U; V }\n\
                  type I = interface { m(a A) (r R); W }\n";
    let mut decls = Seq::new(alloc);
    let fields = two(alloc, field(alloc, &[31, 34], 36)?, field(alloc, &[], 39)?)?;
    let param = TypeParam {
        name: letter(17),
        bound: Shared::new(alloc, one(alloc, term(alloc, 19))?)?,
        shares: false,
    };
    decls.push(type_decl(alloc, 15, one(alloc, param)?, TypeExpr::Struct(fields))?)?;
    let method = Element::Method {
        tokens: no_tokens(),
        name: letter(64),
        sig: Signature {
            params: one(alloc, parameter(alloc, 66, named(alloc, 68))?)?,
            results: one(alloc, parameter(alloc, 72, named(alloc, 74))?)?,
        },
    };
    let embedded = Element::Terms {
        tokens: no_tokens(),
        terms: one(alloc, term(alloc, 78))?,
    };
    let elements = two(alloc, method, embedded)?;
    decls.push(type_decl(alloc, 48, Seq::new(alloc), TypeExpr::Interface(elements))?)?;
    let told = kinds_in(&rt, source, decls)?;
    assert!(rt;
        told.as_str()
            == "1:8 PackageName 2:15 TypeName 2:17 Usage 2:19 Usage 2:31 VarName 2:34 VarName 2:36 Usage \
         2:39 Usage 3:48 TypeName 3:64 MethodName 3:66 Usage 3:68 Usage 3:72 Usage 3:74 Usage \
         3:78 Usage "
    );
    Ok(())
}

/// A function without results.
fn function(alloc: Global, name: u32, receiver: Option<Receiver>, params: Seq<Param>) -> Decl {
    Decl::Func(FuncDecl {
        tokens: no_tokens(),
        name: letter(name),
        receiver,
        params: Seq::new(alloc),
        sig: Signature {
            params,
            results: Seq::new(alloc),
        },
        body: None,
    })
}

#[test]
fn what_two_parameters_share_is_declared(rt: HostRuntime) -> Result<(), Fail> {
    let alloc = rt.alloc();
    let source = "package p\nfunc f(a, b struct { x A }) {}\n";
    let typ = TypeExpr::Struct(one(alloc, field(alloc, &[31], 33)?)?);
    let last = parameter(alloc, 20, typ)?;
    let first = Param {
        name: Some(letter(17)),
        typ: last.typ.share()?,
        variadic: false,
        shares: true,
    };
    let decl = function(alloc, 15, None, two(alloc, first, last)?);
    let told = kinds_in(&rt, source, one(alloc, decl)?)?;
    assert!(rt;
        told.as_str()
            == "1:8 PackageName 2:15 FuncName 2:17 Usage 2:20 Usage 2:31 VarName 2:33 Usage "
    );
    Ok(())
}

#[test]
fn what_stands_in_a_body_is_a_use(rt: HostRuntime) -> Result<(), Fail> {
    let alloc = rt.alloc();
    let source = "package p\nfunc f(a struct { x A }) { type L struct { z B } }\n\
                  func (r *T) g() {}\n";
    let mut decls = Seq::new(alloc);
    let typ = TypeExpr::Struct(one(alloc, field(alloc, &[28], 30)?)?);
    decls.push(function(alloc, 15, None, one(alloc, parameter(alloc, 17, typ)?)?))?;
    let receiver = Receiver {
        name: Some(letter(67)),
        pointer: true,
        base: letter(70),
        params: Seq::new(alloc),
    };
    decls.push(function(alloc, 73, Some(receiver), Seq::new(alloc)))?;
    let told = kinds_in(&rt, source, decls)?;
    assert!(rt;
        told.as_str()
            == "1:8 PackageName 2:15 FuncName 2:17 Usage 2:28 VarName 2:30 Usage 2:42 Usage 2:53 Usage \
         2:55 Usage 3:67 Usage 3:70 Usage 3:73 MethodName "
    );
    Ok(())
}

#[test]
fn what_stands_in_a_length_or_a_value_is_a_use(rt: HostRuntime) -> Result<(), Fail> {
    let alloc = rt.alloc();
    let source = "package p\nvar v [N]struct { x A } = F(struct { y B }{})\n";
    let elem = TypeExpr::Struct(one(alloc, field(alloc, &[28], 30)?)?);
    let array = TypeExpr::Array {
        length: no_tokens(),
        elem: Boxed::new(alloc, elem)?,
    };
    let variable = Decl::Var(group(alloc, values(alloc, &[14], array)?)?);
    let told = kinds_in(&rt, source, one(alloc, variable)?)?;
    assert!(rt;
        told.as_str()
            == "1:8 PackageName 2:14 VarName 2:17 Usage 2:28 VarName 2:30 Usage 2:36 Usage 2:47 Usage \
         2:49 Usage "
    );
    Ok(())
}
