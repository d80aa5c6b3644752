//! The query of a search.

ghost use Rattle.std.specs.Prelude.{◌≡◌, IfOk};
ghost use Rattle.std.specs.Char.{is_ascii_digit};
ghost use Rattle.std.specs.List.{list_all};
ghost use Rattle.routes.specs.Targets.{first_value, page_asked, page_number, search_target};

use crate::target::Target;
use go_chars::is_name;
use plain_data::{Mem, Txt};
use std::alloc::Global;

/// The number of the first page.
const FIRST_PAGE: u32 = 1;

/// The most digits of a page's number.
const MAX_PAGE_DIGITS: usize = 6;

/// The value of the first pair with this name in a query (URL Standard, section 5.1).
fn first_value(alloc: Global, query: &str, name: &str) -> Mem<Option<Txt>>
    ensures { IfOk result (λ value. value ≡ first_value name.now query.now) }
{
    for pair in form_urlencoded::parse(alloc, query.as_bytes()) {
        let (key, value) = pair?;
        if key.as_str() == name {
            return Ok(Some(Txt::from_string(value.into_owned(alloc)?)));
        }
    }
    Ok(None)
}

fn is_digits(text: &str) -> bool
    ensures { result ≡ list_all is_ascii_digit text.now }
{
    text.as_bytes().iter().all(|b| b.is_ascii_digit())
}

/// The number of a page: one to six digits, and at least 1.
fn page_number(text: &str) -> Option<u32>
    ensures { result ≡ page_number text.now }
{
    if text.len() > MAX_PAGE_DIGITS || !is_digits(text) {
        return None;
    }
    match text.parse() {
        Ok(page) if page >= FIRST_PAGE => Some(page),
        _ => None,
    }
}

/// The page that the value of `p` asks for: the first where there isn't one.
fn page_asked(text: Option<Txt>) -> Option<u32>
    ensures { result ≡ page_asked text }
{
    match text {
        Some(text) => page_number(text.as_str()),
        None => Some(FIRST_PAGE),
    }
}

/// The search that a query asks for: the first `q` is an identifier that isn't a keyword, and
/// the first `p` the number of a page.
pub fn search_target(alloc: Global, query: &str) -> Mem<Target>
    ensures { IfOk result (λ target. target ≡ search_target query.now) }
{
    let Some(name) = first_value(alloc, query, "q")? else {
        return Ok(Target::BadTarget);
    };
    if !is_name(name.as_str()) {
        return Ok(Target::BadTarget);
    }
    match page_asked(first_value(alloc, query, "p")?) {
        Some(page) => Ok(Target::Search { name, page }),
        None => Ok(Target::BadTarget),
    }
}
