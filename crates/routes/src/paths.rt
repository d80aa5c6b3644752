//! The parts of a request target, and the values of its path.

ghost use Rattle.std.specs.Prelude.{◌≡◌, IfOk, MatchOption};
ghost use Rattle.routes.specs.Targets.{path_and_query, path_of, query_of, decoded};
ghost use Rattle.routes.specs.Targets.{without_slash, package_target, source_target};

use crate::target::Target;
use percent_encoding::{DecodeError, percent_decode};
use plain_data::{Mem, NoMemory, Txt};
use std::alloc::Global;

/// What follows the leading `/` of a target (RFC 9112, section 3.2), in absolute form that of its
/// path. `None` where the target doesn't begin with `/`.
pub fn path_and_query(target: &str) -> Option<&str>
    ensures { MatchOption result (path_and_query target.now ≡ None)
        (λ rest. path_and_query target.now ≡ Some rest.now) }
{
    match target.strip_prefix("http://") {
        Some(authority_first) => match authority_first.split_once('/') {
            Some((_, rest)) => Some(rest),
            None => Some(""),
        },
        None => target.strip_prefix('/'),
    }
}

/// The path, which ends before the first `?`, and the query after that (RFC 3986, section 3.4).
pub fn split_query(rest: &str) -> (&str, &str)
    ensures path { result.0.now ≡ path_of rest.now }
    ensures query { result.1.now ≡ query_of rest.now }
{
    rest.split_once('?').unwrap_or((rest, ""))
}

/// The text that a path value stands for (RFC 3986, section 2.1). `None` where it isn't UTF-8.
fn decode(alloc: Global, value: &[u8]) -> Mem<Option<Txt>>
    ensures { IfOk result (λ text. text ≡ decoded value.now) }
{
    match percent_decode(value).decode_utf8(alloc) {
        Ok(text) => Ok(Some(Txt::from_string(text.into_owned(alloc)?))),
        Err(DecodeError::Utf8(_)) => Ok(None),
        Err(DecodeError::OutOfMemory) => Err(NoMemory),
    }
}

/// The text without one final `/`.
fn without_slash(text: &str) -> &str
    ensures { result.now ≡ without_slash text.now }
{
    match text.strip_suffix('/') {
        Some(front) => front,
        None => text,
    }
}

/// The package that a path value names.
pub fn package_target(alloc: Global, value: &[u8]) -> Mem<Target>
    ensures { IfOk result (λ target. target ≡ package_target value.now) }
{
    match decode(alloc, value)? {
        Some(path) => Ok(Target::PackagePage(Txt::from_str(alloc, without_slash(path.as_str()))?)),
        None => Ok(Target::BadTarget),
    }
}

/// The source file that a path value names.
pub fn source_target(alloc: Global, value: &[u8]) -> Mem<Target>
    ensures { IfOk result (λ target. target ≡ source_target value.now) }
{
    match decode(alloc, value)? {
        Some(path) => Ok(Target::SourcePage(path)),
        None => Ok(Target::BadTarget),
    }
}
