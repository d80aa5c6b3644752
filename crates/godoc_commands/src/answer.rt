//! The command `answer`: the requests of one connection, answered by one edition.
//!
//! Four functions hand its session on, since each describes it in other terms: by what the one
//! reader was told, by the edition and a link, by an input and an output, and as a run's status.

ghost use Rattle.std.specs.Prelude.{◌≡◌, true, [], ◌∷◌, All, vec_len};
ghost use Rattle.corpus.specs.Corpora.{Edition};
ghost use Rattle.plain_data.specs.Causes.{IsCaused};
ghost use Rattle.godoc_commands.specs.Changes.{input_change, output_change, tree_change};
ghost use Rattle.godoc_commands.specs.Outcome.{IsOfTree, OpensAtMostOne};
ghost use Rattle.godoc_commands.specs.Serving.{AnswersPlan, Serves};

use crate::scan::scan_edition;
use crate::site::Site;
use crate::status::Status;
use corpus::Corpus;
use go_ast::Config;
use link_io::{Both, Link, Sink, Source};
use publication::{EditionReader, Told, open_editions};
use session::{SessionEnd, serve_link};
use std::alloc::Global;
use std::sync::{Arc, Wait};
use tree_io::Tree;

/// Serves one connection by a history of one edition, and returns why the session ended.
fn serve<R: Wait, L: Link>(rt: &R, alloc: Global, edition: Corpus, link: &mut L) -> SessionEnd
    ensures session { Serves edition (L.remaining link.old) (L.remaining link.new)
        (L.held link.old) (L.held link.new) result }
    ensures read_faults { IsCaused (L.read_faults link.old) (L.read_faults link.new)
        (result ≡ SessionEnd.ReadFault) }
    ensures write_faults { IsCaused (L.write_faults link.old) (L.write_faults link.new)
        (result ≡ SessionEnd.WriteFault) }
    ensures same_references { L.Source.references link.new ≡ L.Source.references link.old }
{
    let Ok(first) = Arc::new(alloc, edition) else {
        return SessionEnd::NoMemory;
    };
    let Ok(site) = Site::new(alloc) else {
        return SessionEnd::NoMemory;
    };
    let Ok((mut publisher, readers)) = open_editions(rt, alloc, first, 1) else {
        return SessionEnd::NoMemory;
    };
    let told = publisher.tell_last();
    let end = serve_told(alloc, link, &site, readers, told);
    publisher.close(rt);
    end
}

/// Serves one connection by the one reader, which learns first what it was told for the last time.
fn serve_told<L: Link>(
    alloc: Global,
    link: &mut L,
    site: &Site,
    mut readers: Vec<EditionReader<Corpus>>,
    told: Told<Corpus>,
) -> SessionEnd
    requires one { vec_len readers ≡ 1 }
    requires opening { All (λ reader. reader.opening ≡ told.opening) readers.items }
    requires closed { told.closed ≡ true }
    ensures session { (edition : Edition) → told.editions ≡ edition ∷ []
        → Serves edition (L.remaining link.old) (L.remaining link.new)
        (L.held link.old) (L.held link.new) result }
    ensures read_faults { IsCaused (L.read_faults link.old) (L.read_faults link.new)
        (result ≡ SessionEnd.ReadFault) }
    ensures write_faults { IsCaused (L.write_faults link.old) (L.write_faults link.new)
        (result ≡ SessionEnd.WriteFault) }
    ensures same_references { L.Source.references link.new ≡ L.Source.references link.old }
{
    let mut reader = readers.pop().unwrap();
    reader.learn(told);
    serve_link(alloc, link, &mut reader, site)
}

/// Serves the connection whose two ways are the input and the output.
fn serve_between<R: Wait, I: Source, O: Sink>(
    rt: &R,
    alloc: Global,
    edition: Corpus,
    input: &mut I,
    out: &mut O,
) -> SessionEnd
    ensures session { Serves edition (I.remaining input.old) (I.remaining input.new)
        (O.held out.old) (O.held out.new) result }
    ensures read_faults { IsCaused (I.read_faults input.old) (I.read_faults input.new)
        (result ≡ SessionEnd.ReadFault) }
    ensures write_faults { IsCaused (O.write_faults out.old) (O.write_faults out.new)
        (result ≡ SessionEnd.WriteFault) }
{
    serve(rt, alloc, edition, &mut Both { input, out })
}

/// Scans a tree once for a configuration, and answers the requests of the input by the edition of
/// that scan.
pub(crate) fn answer<R: Wait, T: Tree, I: Source, O: Sink>(
    rt: &R,
    alloc: Global,
    config: &Config,
    tree: &mut T,
    input: &mut I,
    out: &mut O,
) -> Status
    ensures answers { AnswersPlan config.now
        (tree_change T.scans T.list_faults T.read_faults tree.old tree.new)
        (input_change I.remaining I.read_faults input.old input.new)
        (output_change O.held O.write_faults out.old out.new) result }
    ensures unread { IsOfTree result → input.new ≡ input.old }
    ensures unwritten { IsOfTree result → out.new ≡ out.old }
    ensures list_faults { IsCaused (T.list_faults tree.old) (T.list_faults tree.new)
        (result ≡ Status.TreeFault) }
    ensures read_faults { IsCaused (I.read_faults input.old) (I.read_faults input.new)
        (result ≡ Status.ReadFault) }
    ensures write_faults { IsCaused (O.write_faults out.old) (O.write_faults out.new)
        (result ≡ Status.WriteFault) }
    ensures at_most_one_scan { OpensAtMostOne (T.scans tree.old) (T.scans tree.new) }
{
    match scan_edition(alloc, config, tree) {
        Ok(corpus) => Status::from(serve_between(rt, alloc, corpus, input, out)),
        Err(fault) => Status::from(fault),
    }
}
