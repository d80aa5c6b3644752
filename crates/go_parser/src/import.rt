//! Imports (Go specification, "Import declarations").

ghost use Rattle.std.specs.Prelude.{◌≡◌, IfOk};
ghost use Rattle.go_parser.specs.Reading as spec;

use crate::group::ReadSpec;
use crate::read::Read;
use go_ast::{ImportName, ImportSpec, Mark};
use std::alloc::Global;
use type_parser::Words;

/// The specs of imports.
#[derive(Clone, Copy)]
pub struct Imports;

/// The import that the words spell.
#[tactic(auto, unfolding(crate::specs::Reading::read_import_spec))]
fn import_spec(words: &Words<'_>) -> Option<ImportSpec>
    ensures { result ≡ spec.read_import_spec words.now }
{
    let tokens = words.range();
    let (first, rest) = words.split_first()?;
    let Some((path, others)) = rest.split_first() else {
        if !first.mark.is(Mark::Text) {
            return None;
        }
        return Some(ImportSpec {
            tokens,
            local: ImportName::Plain,
            path: first.span,
        });
    };
    if !others.is_empty() || !path.mark.is(Mark::Text) {
        return None;
    }
    let local = if first.mark.is(Mark::Dot) {
        ImportName::Dot
    } else if first.mark.is(Mark::Ident) {
        ImportName::Named(first.span)
    } else {
        return None;
    };
    Some(ImportSpec {
        tokens,
        local,
        path: path.span,
    })
}

impl ReadSpec<ImportSpec> for Imports {
    ghost use Rattle.go_parser.specs.Reading.{read_import_spec};

    ghost reads = { λ imports. read_import_spec };

    fn read(&self, alloc: Global, words: &Words<'_>) -> Read<ImportSpec> {
        Ok(import_spec(words))
    }
}
