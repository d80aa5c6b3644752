//! The table of routes.

ghost use Rattle.std.specs.Prelude.{◌≡◌, OnOk, IfOk};
ghost use Rattle.matchit.specs.Route.{parse_route};
ghost use Rattle.matchit.specs.Router.{rename};
ghost use Rattle.routes.specs.Rows.{IsFree, page_rows, with_route};
ghost use Rattle.routes.specs.Targets.{by_path, by_rest, page_at, path_and_query, target_of};

use crate::paths::{package_target, path_and_query, source_target, split_query};
use crate::query::search_target;
use crate::target::Target;
use http_wire::{Request, Verb};
use matchit::InsertError;
use plain_data::{Mem, NoMemory};
use std::alloc::Global;

/// What a path asks for.
#[derive(Clone, Copy, Debug, PartialEq, Eq)]
pub enum Page {
    /// The list of packages.
    List,
    /// A package, by the rest of the path.
    Package,
    /// A source file, by the rest of the path.
    Source,
    /// A search.
    Search,
    /// The list of the files with faults.
    Faults,
}

/// The bytes of `pkg/` and of `src/`, before the value of a path.
const VALUE_START: usize = 4;

/// The table of routes, made once. It reads the targets of requests.
#[derive(Drop)]
pub struct Router {
    // The paths stand in it without their leading slash.
    pages: matchit::Router<Page>,
    ghost rows: { rename (λ route. route.value) pages ≡ page_rows },
}

/// Adds a route. It can be read, and stands next to those that are there.
fn add(pages: &mut matchit::Router<Page>, route: &str, page: Page) -> Mem<()>
    requires { IsFree (parse_route route.now) pages.old }
    ensures { OnOk result (pages.new ≡ with_route (parse_route route.now) page pages.old) }
{
    match pages.insert(route, page) {
        Ok(()) => Ok(()),
        Err(InsertError::OutOfMemory) => Err(NoMemory),
        Err(_) => unreachable!(),
    }
}

impl Router {
    /// The table of all routes.
    pub fn new(alloc: Global) -> Mem<Router> {
        let mut pages = matchit::Router::new(alloc);
        add(&mut pages, "", Page::List)?;
        add(&mut pages, "pkg", Page::List)?;
        add(&mut pages, "pkg/", Page::List)?;
        add(&mut pages, "pkg/{*path}", Page::Package)?;
        add(&mut pages, "src/{*path}", Page::Source)?;
        add(&mut pages, "search", Page::Search)?;
        add(&mut pages, "faults", Page::Faults)?;
        Ok(Router { pages })
    }

    /// What a path without its leading slash asks for.
    fn page_at(&self, path: &str) -> Option<Page>
        ensures { result ≡ page_at path.now }
    {
        match self.pages.at(path) {
            Ok(found) => Some(*found.value),
            Err(_) => None,
        }
    }

    /// What a path without its leading slash asks for, and its query.
    fn by_path(&self, alloc: Global, path: &str, query: &str) -> Mem<Target>
        ensures { IfOk result (λ target. target ≡ by_path path.now query.now) }
    {
        match self.page_at(path) {
            Some(Page::List) => Ok(Target::List),
            Some(Page::Package) => package_target(alloc, &path.as_bytes()[VALUE_START..]),
            Some(Page::Source) => source_target(alloc, &path.as_bytes()[VALUE_START..]),
            Some(Page::Search) => search_target(alloc, query),
            Some(Page::Faults) => Ok(Target::Faults),
            None => Ok(Target::NotFound),
        }
    }

    /// What a target asks for.
    fn by_target(&self, alloc: Global, target: &str) -> Mem<Target>
        ensures { IfOk result (λ found. found ≡ by_rest (path_and_query target.now)) }
    {
        match path_and_query(target) {
            Some(rest) => {
                let (path, query) = split_query(rest);
                self.by_path(alloc, path, query)
            }
            None => Ok(Target::BadTarget),
        }
    }

    /// What a request asks for. A method other than GET and HEAD comes before all else.
    pub fn target(&self, alloc: Global, request: &Request) -> Mem<Target>
        ensures { IfOk result (λ target. target ≡ target_of request.now) }
    {
        match request.verb {
            Verb::Get | Verb::Head => self.by_target(alloc, request.target.as_str()),
            Verb::Other => Ok(Target::BadVerb),
        }
    }
}
