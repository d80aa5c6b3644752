//! What answers requests: which page, with which head.

ghost use Rattle.std.specs.Prelude.{◌≡◌, IfOk};
ghost use Rattle.godoc_commands.specs.Replies.{content_by, page_of, reply_with, with_code};

use crate::pages::{faults_page, list_page, message_page};
use corpus::Corpus;
use http_wire::{Code, Request, Verb, reply_head};
use plain_data::Mem;
use routes::{Router, Target};
use session::Responder;
use std::alloc::Global;

/// What answers a target: the status of the reply, and the bytes of the page.
#[derive(Drop)]
struct Answer {
    code: Code,
    page: Vec<u8>,
}

/// What answers a target. One that has no page yet isn't found.
fn page_of(alloc: Global, corpus: &Corpus, target: &Target) -> Mem<Answer>
    ensures { IfOk result (λ answer. with_code answer.code answer.page.items
        ≡ page_of corpus.now target.now) }
{
    let (code, page) = match target {
        Target::List => (Code::Ok, list_page(alloc, corpus)?),
        Target::Faults => (Code::Ok, faults_page(alloc, corpus)?),
        Target::BadTarget => (Code::BadRequest, message_page(alloc, "Bad request")?),
        Target::BadVerb => (Code::NotAllowed, message_page(alloc, "Method not allowed")?),
        Target::NotFound | Target::PackagePage(_) | Target::SourcePage(_) | Target::Search { .. } =>
            (Code::NotFound, message_page(alloc, "Not found")?),
    };
    Ok(Answer { code, page })
}

/// What stands after the head of a reply: nothing for `HEAD`, and else the page.
fn content_of(verb: Verb, page: &[u8]) -> &[u8]
    ensures { result.now ≡ content_by verb page.now }
{
    match verb {
        Verb::Head => &[],
        Verb::Get | Verb::Other => page,
    }
}

/// The reply with a page: its head, with the page's length, and the page unless the method is
/// `HEAD`.
fn reply_with(alloc: Global, answer: &Answer, number: u64, verb: Verb, last: bool) -> Mem<Vec<u8>>
    ensures { IfOk result (λ reply. reply.items
        ≡ reply_with (with_code answer.now.code answer.now.page.items) number verb last) }
{
    let page = answer.page.as_slice();
    let mut reply = reply_head(alloc, answer.code, page.len() as u64, number, last)?;
    reply.extend_from_slice(content_of(verb, page))?;
    Ok(reply)
}

/// The site: it answers each request by a page of the edition.
#[derive(Drop)]
pub(crate) struct Site {
    router: Router,
}

impl Site {
    /// The site with its table of routes.
    pub(crate) fn new(alloc: Global) -> Mem<Site> {
        Ok(Site {
            router: Router::new(alloc)?,
        })
    }
}

impl Responder<Corpus> for Site {
    ghost use Rattle.godoc_commands.specs.Replies.{reply_of};

    ghost reply_of = { λ _. reply_of };

    fn reply(
        &self,
        alloc: Global,
        number: u64,
        edition: &Corpus,
        request: &Request,
        last: bool,
    ) -> Mem<Vec<u8>> {
        let target = self.router.target(alloc, request)?;
        let answer = page_of(alloc, edition, &target)?;
        reply_with(alloc, &answer, number, request.verb, last)
    }
}
