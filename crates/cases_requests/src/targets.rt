//! What requests ask for.

use http_wire::{Request, Verb};
use plain_data::{Mem, Txt};
use routes::{Router, Target};
use std::alloc::Global;

/// The name of a target and its values.
fn shown(alloc: Global, target: &Target) -> Mem<String> {
    let (word, value) = match target {
        Target::List => ("list", ""),
        Target::PackagePage(path) => ("package ", path.as_str()),
        Target::SourcePage(path) => ("source ", path.as_str()),
        Target::Search { name, page } => {
            return Ok(format!(in alloc; "search {} {page}", name.as_str())?);
        }
        Target::Faults => ("faults", ""),
        Target::NotFound => ("not found", ""),
        Target::BadTarget => ("bad target", ""),
        Target::BadVerb => ("bad verb", ""),
    };
    let mut text = String::from_str(alloc, word)?;
    text.push_str(value)?;
    Ok(text)
}

/// What a request with this method and target asks for.
pub fn target(alloc: Global, verb: Verb, target: &str) -> Mem<String> {
    let request = Request {
        verb,
        target: Txt::from_str(alloc, target)?,
        close: false,
    };
    shown(alloc, &Router::new(alloc)?.target(alloc, &request)?)
}
