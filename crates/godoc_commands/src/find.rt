//! The command `find`: the places where a name stands as an identifier.

ghost use Rattle.std.specs.Prelude.{◌≡◌, All, OnErr, OnOk};
ghost use Rattle.std.specs.List.{flat_map};
ghost use Rattle.link_io.specs.Streams.{Adds};
ghost use Rattle.plain_data.specs.Causes.{HasIoCause, IsCaused};
ghost use Rattle.godoc_commands.specs.Changes.{output_change, tree_change};
ghost use Rattle.godoc_commands.specs.HitLines.{AddsFound, AddsFoundFront, AddsFront, IsHitIn};
ghost use Rattle.godoc_commands.specs.HitLines.{hit_line};
ghost use Rattle.godoc_commands.specs.Outcome.{FindsPlan, IsOfTree, OpensAtMostOne};

use crate::hit_lines::{hits_of, lines_of};
use crate::scan::scan_edition;
use crate::status::Status;
use corpus::{Corpus, own_tables};
use go_ast::{Config, IoFail, Txt};
use ident_index::Hit;
use link_io::{Sink, write_whole};
use std::alloc::Global;
use tree_io::Tree;

/// The most hits whose lines are written at once.
const PART_HITS: usize = 1_024;

/// Writes the lines of hits.
fn write_part<O: Sink>(
    alloc: Global,
    corpus: &Corpus,
    hits: &[Hit],
    out: &mut O,
) -> Result<(), IoFail>
    requires { All (IsHitIn corpus.now) hits.now }
    ensures ok { OnOk result (Adds (O.held out.old)
        (flat_map (hit_line corpus.now.tables.files) hits.now) (O.held out.new)) }
    ensures front { OnErr result (AddsFront (O.held out.old)
        (flat_map (hit_line corpus.now.tables.files) hits.now) (O.held out.new)) }
    ensures cause { HasIoCause (O.write_faults out.old) (O.write_faults out.new) result }
{
    let lines = lines_of(alloc, corpus, hits)?;
    match write_whole(out, lines.as_slice()) {
        Ok(()) => Ok(()),
        Err(_) => Err(IoFail::Failed),
    }
}

/// Writes the lines of hits, those of some hits at a time.
fn write_lines<O: Sink>(
    alloc: Global,
    corpus: &Corpus,
    hits: &[Hit],
    out: &mut O,
) -> Result<(), IoFail>
    requires { All (IsHitIn corpus.now) hits.now }
    ensures ok { OnOk result (Adds (O.held out.old)
        (flat_map (hit_line corpus.now.tables.files) hits.now) (O.held out.new)) }
    ensures front { OnErr result (AddsFront (O.held out.old)
        (flat_map (hit_line corpus.now.tables.files) hits.now) (O.held out.new)) }
    ensures cause { HasIoCause (O.write_faults out.old) (O.write_faults out.new) result }
{
    for part in hits.chunks(PART_HITS) {
        write_part(alloc, corpus, part, out)?;
    }
    Ok(())
}

/// Writes a line for each place where a name stands as an identifier in the files of a corpus.
fn write_found<O: Sink>(
    alloc: Global,
    corpus: &Corpus,
    name: &str,
    out: &mut O,
) -> Result<(), IoFail>
    ensures found { OnOk result
        (AddsFound name.now corpus.now.sources (O.held out.old) (O.held out.new)) }
    ensures front { OnErr result
        (AddsFoundFront name.now corpus.now.sources (O.held out.old) (O.held out.new)) }
    ensures cause { HasIoCause (O.write_faults out.old) (O.write_faults out.new) result }
{
    own_tables(corpus);
    let name = Txt::from_str(alloc, name)?;
    write_lines(alloc, corpus, hits_of(corpus, &name), out)
}

/// Writes a line for each place where a name stands as an identifier in a tree, over one scan for a
/// configuration.
pub(crate) fn find<T: Tree, O: Sink>(
    alloc: Global,
    config: &Config,
    name: &str,
    tree: &mut T,
    out: &mut O,
) -> Status
    ensures finds { FindsPlan config.now name.now
        (tree_change T.scans T.list_faults T.read_faults tree.old tree.new)
        (output_change O.held O.write_faults out.old out.new) result }
    ensures unwritten { IsOfTree result → out.new ≡ out.old }
    ensures list_faults { IsCaused (T.list_faults tree.old) (T.list_faults tree.new)
        (result ≡ Status.TreeFault) }
    ensures write_faults { IsCaused (O.write_faults out.old) (O.write_faults out.new)
        (result ≡ Status.WriteFault) }
    ensures at_most_one_scan { OpensAtMostOne (T.scans tree.old) (T.scans tree.new) }
{
    let corpus = match scan_edition(alloc, config, tree) {
        Ok(corpus) => corpus,
        Err(fault) => return Status::from(fault),
    };
    match write_found(alloc, &corpus, name, out) {
        Ok(()) => Status::Done,
        Err(IoFail::Failed) => Status::WriteFault,
        Err(IoFail::NoMemory) => Status::NoMemory,
    }
}
