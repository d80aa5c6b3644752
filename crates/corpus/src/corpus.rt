//! What is computed from a whole scan of a tree.

ghost use Rattle.std.specs.Prelude.{◌≡◌, ◌<◌, Some, length, map, position, slice_get};
ghost use Rattle.std.specs.Str.{bytes_eq};
ghost use Rattle.tree_io.specs.Path.{paths_of};
ghost use Rattle.corpus.specs.Corpora.{IsEdition, edition};

use crate::faults::FileFault;
use crate::snapshot::Snapshot;
use crate::tables::Tables;
use corpus_piece::Piece;
use go_ast::Config;
use ident_index::Postings;
use package_group::Package;
use std::marker::Model;
use tree_io::Entry;

/// All that is computed from a set of sources, which nothing changes: the files with their
/// outcomes, the packages, the faults and the table of identifiers. Contracts see it as the set of
/// sources with the tables that the definition gives for it.
#[derive(Drop)]
pub struct Corpus {
    snapshot: Snapshot,
    tables: Tables,
}

impl Model for Corpus {
    ghost use Rattle.corpus.specs.Codes.{edition_code};
    ghost use Rattle.corpus.specs.Corpora.{Edition, IsEdition, edition};

    ghost Value = { Edition };

    ghost coded = { edition_code };

    ghost view = { λ c. edition c.snapshot c.tables };

    ghost invariant = { λ c. IsEdition (edition c.snapshot c.tables) };
}

impl Corpus {
    /// The corpus of a snapshot, of which these are the tables.
    pub(crate) fn new(snapshot: Snapshot, tables: Tables) -> Corpus
        requires { IsEdition (edition snapshot tables) }
        ensures { result ≡ edition snapshot tables }
    {
        Corpus { snapshot, tables }
    }

    /// The configuration that the files were read for. It takes no memory.
    pub fn config(&self) -> &Config
        ensures { result.now ≡ self.now.sources.config }
    {
        self.snapshot.config()
    }

    /// How many files the scan has. They have the numbers below that, by their paths. It takes no
    /// memory.
    pub fn files(&self) -> u32
        ensures { result ≡ length self.now.sources.entries }
    {
        self.snapshot.files()
    }

    /// What the scan has of the file with a number, which is below [`Corpus::files`]. It takes no
    /// memory.
    pub fn entry(&self, number: u32) -> &Entry
        requires { number < length self.now.sources.entries }
        ensures { slice_get (map (λ e. e.1) self.now.sources.entries) number ≡ Some result.now }
    {
        self.snapshot.entry(number)
    }

    /// The path of the file with a number, which is below [`Corpus::files`]. It takes no memory.
    pub fn path(&self, number: u32) -> &str
        requires { number < length self.now.sources.entries }
        ensures { slice_get (paths_of self.now.sources.entries) number ≡ Some result.now }
    {
        self.snapshot.path(number)
    }

    /// The outcome of the file with a number, which is below [`Corpus::files`]. It takes no memory.
    pub fn piece(&self, number: u32) -> &Piece
        requires { number < length self.now.sources.entries }
        ensures { slice_get self.now.tables.files number ≡ Some result.now }
    {
        &self.tables.files.as_slice()[number as usize]
    }

    /// The packages, rising by the bytes of their paths; their files are named by numbers (Go
    /// specification, "Packages"). It takes no memory.
    pub fn packages(&self) -> &[Package]
        ensures { result.now ≡ self.now.tables.packages }
    {
        self.tables.packages.as_slice()
    }

    /// The faults of the files, in the order of the files. It takes no memory.
    pub fn faults(&self) -> &[FileFault]
        ensures { result.now ≡ self.now.tables.faults }
    {
        self.tables.faults.as_slice()
    }

    /// The table of the identifiers of all files that belong to packages; their hits name files by
    /// numbers. It takes no memory.
    pub fn postings(&self) -> &Postings
        ensures { result.now ≡ self.now.tables.postings }
    {
        &self.tables.postings
    }

    /// The place of the package with a path, or `None` where no package has it. It looks by
    /// halving, and takes no memory.
    pub fn find_package(&self, path: &str) -> Option<u32>
        ensures { result ≡ position (bytes_eq path.now)
            (map (λ p. p.path) self.now.tables.packages) }
    {
        match self
            .tables
            .packages
            .as_slice()
            .binary_search_by(|package| package.path.as_str().cmp(path))
        {
            Ok(place) => Some(place as u32),
            Err(_) => None,
        }
    }

    /// The number of the file at a path, or `None` where no file has it. It looks by binary
    /// search, and
    /// takes no memory.
    pub fn find_file(&self, path: &str) -> Option<u32>
        ensures { result ≡ position (bytes_eq path.now) (paths_of self.now.sources.entries) }
    {
        self.snapshot.find_file(path)
    }
}

/// The tables of a corpus are those of its own sources, which are those of a scan within its
/// limits. The call does nothing.
pub fn own_tables(corpus: &Corpus)
    ensures { IsEdition corpus.now }
{
    let _ = &corpus.snapshot;
}
