//! The lines of the hits of a name.

ghost use Rattle.std.specs.Prelude.{◌≡◌, ◌++◌, ◌<◌, All, IfOk, OnOk};
ghost use Rattle.std.specs.List.{flat_map};
ghost use Rattle.corpus.specs.Corpora.{hits_in};
ghost use Rattle.ident_index.specs.Postings.{hits_at, hits_named};
ghost use Rattle.godoc_commands.specs.Find.{position_line};
ghost use Rattle.godoc_commands.specs.HitLines.{IsHitIn, hit_line};

use corpus::{Corpus, own_tables};
use corpus_piece::Outcome;
use go_ast::{Mem, Txt};
use go_scanner::{Position, position_of};
use ident_index::{Hit, Postings, Steps, hits_of_a_posting};
use std::alloc::Global;
use std::marker::Brand;
use std::sync::ledger::{Blank, Ledger};
use text_out::Text;

/// The hits of a name, whose steps are counted by a ledger of this blank.
fn look_up<'p, L: Ledger>(postings: &'p Postings, name: &Txt, blank: Blank) -> &'p [Hit]
    requires name { blank.name ≡ L.name }
    requires parts { blank.parts ≡ L.parts }
    requires some { 0 < blank.parts }
    ensures { result.now ≡ hits_at postings.now name.now }
{
    let mut steps = Steps::<L>::new(blank);
    postings.find(name.as_str(), &mut steps)
}

/// The hits of a name in the files of a corpus, by rising path and offset.
pub(crate) fn hits_of<'c>(corpus: &'c Corpus, name: &Txt) -> &'c [Hit]
    ensures { result.now ≡ hits_named name.now (hits_in corpus.now.tables.files) }
{
    own_tables(corpus);
    hits_of_a_posting();
    look_up::<Brand>(corpus.postings(), name, Blank::new(1))
}

/// Appends a path, a line, a column and a newline.
#[tactic(auto, unfolding(crate::specs::Find::position_line))]
fn push_line(text: &mut Text, path: &str, position: Position) -> Mem<()>
    ensures { OnOk result
        (text.new ≡ text.old ++ position_line path.now position.line position.column) }
{
    text.push(path)?;
    text.push(":")?;
    text.push_number(position.line)?;
    text.push(":")?;
    text.push_number(position.column)?;
    text.push("\n")
}

/// Appends the line of a hit.
fn push_hit(text: &mut Text, corpus: &Corpus, hit: &Hit) -> Mem<()>
    requires { IsHitIn corpus.now hit.now }
    ensures { OnOk result (text.new ≡ text.old ++ hit_line corpus.now.tables.files hit.now) }
{
    let piece = corpus.piece(hit.file);
    match piece.outcome() {
        Outcome::Accepted(parsed) => {
            let position = position_of(parsed.scanned.lines.as_slice(), hit.offset);
            push_line(text, piece.path(), position)
        }
        Outcome::Ignored(_) | Outcome::Faulty(_) => unreachable!(),
    }
}

/// The lines of hits, in their order.
pub(crate) fn lines_of(alloc: Global, corpus: &Corpus, hits: &[Hit]) -> Mem<Vec<u8>>
    requires { All (IsHitIn corpus.now) hits.now }
    ensures { IfOk result
        (λ lines. lines.items ≡ flat_map (hit_line corpus.now.tables.files) hits.now) }
{
    let mut text = Text::new(alloc);
    for hit in hits {
        push_hit(&mut text, corpus, hit)?;
    }
    Ok(text.into_bytes())
}
