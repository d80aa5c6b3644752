//! The table of the identifiers of the files that belong to packages.

ghost use Rattle.std.specs.Prelude.{◌≡◌, All, IfOk, filter, map, nat_eq, not};
ghost use Rattle.std.specs.List.{list_any};
ghost use Rattle.ident_index.specs.Postings.{HasNames, IsTableOf, named_of_all, source_and_hits};
ghost use Rattle.corpus.specs.Steps.{AreRising, seen, source_of};

use crate::accepted::Accepted;
use crate::faulty::is_among;
use go_ast::Mem;
use ident_index::{HitFile, Postings};
use std::alloc::Global;

/// The bytes and the identifiers of the files whose numbers aren't among these.
fn kept_files<'a>(alloc: Global, files: &[Accepted<'a>], beside: &[u32]) -> Mem<Vec<HitFile<'a>>>
    requires { AreRising beside.now }
    ensures { IfOk result (λ kept. map source_and_hits kept.items
        ≡ map source_of (filter (λ a. not (list_any (nat_eq a.number) beside.now))
        (map seen files.now))) }
{
    let mut kept = Vec::new(alloc);
    for file in files {
        if !is_among(beside, file.number) {
            kept.push(HitFile {
                source: file.bytes,
                hits: file.parsed.hits.as_slice(),
            })?;
        }
    }
    Ok(kept)
}

/// The table of the identifiers of the files whose numbers aren't among these.
pub(crate) fn index_of(alloc: Global, files: &[Accepted], beside: &[u32]) -> Mem<Postings>
    requires rising { AreRising beside.now }
    requires names { All (λ file. HasNames file.bytes.now file.parsed.now.hits) files.now }
    ensures { IfOk result (IsTableOf (named_of_all
        (map source_of (filter (λ a. not (list_any (nat_eq a.number) beside.now))
        (map seen files.now))))) }
{
    let kept = kept_files(alloc, files, beside)?;
    Postings::build(alloc, kept.as_slice())
}
