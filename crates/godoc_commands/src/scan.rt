//! One scan of a tree, to the corpus of its sources.

ghost use Rattle.std.specs.Prelude.{◌≡◌, ◌≢◌, ◌≤◌, Err, All, IfErr, IfOk, IsErrOf, IsSome, OnOk};
ghost use Rattle.std.specs.Option.{ForSome};
ghost use Rattle.corpus.specs.Corpora.{AreFilesOf};
ghost use Rattle.corpus.specs.Snapshots.{IsWithinLimits, bytes_of, scan_bytes_limit, source_set};
ghost use Rattle.plain_data.specs.Causes.{IsCaused};
ghost use Rattle.tree_io.specs.Entries.{IsReadSoFar, IsScannedFrom};
ghost use Rattle.tree_io.specs.Scans.{OpensScan, under_way};
ghost use Rattle.tree_io.specs.Sources.{IsSources, bytes_at};
ghost use Rattle.godoc_commands.specs.Changes.{tree_change};
ghost use Rattle.godoc_commands.specs.Outcome.{OpensAtMostOne};
ghost use Rattle.godoc_commands.specs.Serving.{IsEditionOf};
ghost use Rattle.godoc_commands.specs.Steps.{IsReadFault, IsScanFault};

use corpus::{Corpus, MAX_FILES, MAX_SCAN_BYTES, Snapshot, assemble, entry_size, own_tables};
use corpus_piece::{Piece, make_piece};
use go_ast::{Config, IoFail, Mem, NoMemory, Seq, Txt, copy_config};
use std::alloc::Global;
use tree_io::{Entry, Tree, read_entry};

/// Why a scan gave no corpus.
#[derive(Clone, Copy, Debug, PartialEq, Eq)]
pub(crate) enum ScanFault {
    /// The tree could not be listed.
    TreeFault,
    /// The tree has more files than are allowed, this many.
    TooManyFiles(u64),
    /// The files have more bytes than are allowed, this many up to the first with which they do.
    TooManyBytes(u64),
    /// An allocation was refused.
    NoMemory,
}

impl From<NoMemory> for ScanFault {
    ghost use Rattle.std.specs.Prelude.{◌≡◌};
    ghost use Rattle.godoc_commands.specs.declared.scan.ScanFault.TheVariants as faults;

    ghost from_gives = { λ _ fault. fault ≡ faults.NoMemory };

    fn from(_: NoMemory) -> ScanFault {
        ScanFault::NoMemory
    }
}

impl From<IoFail> for ScanFault {
    ghost use Rattle.std.specs.Prelude.{◌≡◌};
    ghost use Rattle.godoc_commands.specs.Steps.{fault_of};

    ghost from_gives = { λ fail fault. fault ≡ fault_of fail };

    fn from(fail: IoFail) -> ScanFault {
        match fail {
            IoFail::Failed => ScanFault::TreeFault,
            IoFail::NoMemory => ScanFault::NoMemory,
        }
    }
}

/// Scans a tree once for a configuration.
///
/// # Errors
///
/// Those of [`scan_tree`].
pub(crate) fn scan_edition<T: Tree>(
    alloc: Global,
    config: &Config,
    tree: &mut T,
) -> Result<Corpus, ScanFault>
    ensures edition { IfOk result (IsEditionOf config.now
        (tree_change T.scans T.list_faults T.read_faults tree.old tree.new)) }
    ensures refused { IfErr result (IsScanFault (T.scans tree.new)
        (T.read_faults tree.old) (T.read_faults tree.new)) }
    ensures list_faults { IsCaused (T.list_faults tree.old) (T.list_faults tree.new)
        (result ≡ Err ScanFault.TreeFault) }
    ensures later { T.read_faults tree.old ≤ T.read_faults tree.new }
    ensures no_file_read { result ≡ Err ScanFault.TreeFault
        → T.read_faults tree.new ≡ T.read_faults tree.old }
    ensures one_scan { result ≢ Err ScanFault.TreeFault → result ≢ Err ScanFault.NoMemory
        → OpensScan (T.scans tree.old) (T.scans tree.new) }
    ensures at_most_one_scan { OpensAtMostOne (T.scans tree.old) (T.scans tree.new) }
{
    let corpus = scan_tree(alloc, tree, config)?;
    own_tables(&corpus);
    Ok(corpus)
}

/// Opens a scan of a tree, lists it, reads its files in the order of their paths, and makes the
/// corpus of them for a configuration. A file that can't be read is `Unread`.
///
/// # Errors
///
/// `TreeFault` where the tree can't be listed; `TooManyFiles` where the scan has more than
/// [`MAX_FILES`] paths, of which none is read then; `TooManyBytes` after the first read with which
/// the bytes that were read pass [`MAX_SCAN_BYTES`]; `NoMemory` where an allocation is refused.
pub(crate) fn scan_tree<T: Tree>(
    alloc: Global,
    tree: &mut T,
    config: &Config,
) -> Result<Corpus, ScanFault>
    ensures scanned { IfOk result (λ corpus. IsScannedFrom (T.scans tree.new) corpus.sources.entries
        (T.read_faults tree.old) (T.read_faults tree.new)) }
    ensures config { IfOk result (λ corpus. corpus.sources.config ≡ config.now) }
    ensures refused { IfErr result (IsScanFault (T.scans tree.new)
        (T.read_faults tree.old) (T.read_faults tree.new)) }
    ensures list_faults { IsCaused (T.list_faults tree.old) (T.list_faults tree.new)
        (result ≡ Err ScanFault.TreeFault) }
    ensures later { T.read_faults tree.old ≤ T.read_faults tree.new }
    ensures no_file_read { result ≡ Err ScanFault.TreeFault
        → T.read_faults tree.new ≡ T.read_faults tree.old }
    ensures one_scan { result ≢ Err ScanFault.TreeFault → result ≢ Err ScanFault.NoMemory
        → OpensScan (T.scans tree.old) (T.scans tree.new) }
    ensures at_most_one_scan { OpensAtMostOne (T.scans tree.old) (T.scans tree.new) }
{
    if tree.open_scan().is_err() {
        return Err(ScanFault::TreeFault);
    }
    let paths = tree.list(alloc)?;
    let files = paths.len() as u64;
    if files > MAX_FILES {
        return Err(ScanFault::TooManyFiles(files));
    }
    let sources = read_files(alloc, tree, paths)?;
    Ok(make_corpus(alloc, copy_config(alloc, config)?, sources)?)
}

/// Reads files of the scan under way, up to the first with which their bytes are too many.
fn read_files<T: Tree>(
    alloc: Global,
    tree: &mut T,
    paths: Seq<Txt>,
) -> Result<Seq<(Txt, Entry)>, ScanFault>
    requires { ForSome (T.scans tree.old)
        (λ told. All (λ path. IsSome (bytes_at (under_way told) path)) paths) }
    ensures read { IfOk result (λ sources. IsReadSoFar (T.scans tree.old) paths sources
        (T.read_faults tree.old) (T.read_faults tree.new)) }
    ensures within { IfOk result (λ sources. bytes_of sources ≤ scan_bytes_limit) }
    ensures refused { IfErr result (IsReadFault (T.scans tree.old) paths
        (T.read_faults tree.old) (T.read_faults tree.new)) }
    ensures later { T.read_faults tree.old ≤ T.read_faults tree.new }
    ensures same_scans { T.scans tree.new ≡ T.scans tree.old }
    ensures same_list_faults { T.list_faults tree.new ≡ T.list_faults tree.old }
{
    let mut sources = Seq::new(alloc);
    let mut bytes = 0;
    for path in paths.into_vec() {
        let entry = read_entry(alloc, tree, path.as_str())?;
        bytes += entry_size(&entry);
        sources.push((path, entry))?;
        if bytes > MAX_SCAN_BYTES {
            return Err(ScanFault::TooManyBytes(bytes));
        }
    }
    Ok(sources)
}

/// The corpus of sources that a scan gave.
fn make_corpus(alloc: Global, config: Config, sources: Seq<(Txt, Entry)>) -> Mem<Corpus>
    requires valid { IsSources sources }
    requires within { IsWithinLimits sources }
    ensures { IfOk result (λ corpus. corpus.sources ≡ source_set config sources) }
{
    let Ok(snapshot) = Snapshot::make(config, sources) else {
        unreachable!()
    };
    let pieces = make_pieces(alloc, &snapshot)?;
    assemble(alloc, snapshot, pieces)
}

/// The pieces of the files of a snapshot, in their order.
fn make_pieces(alloc: Global, snapshot: &Snapshot) -> Mem<Seq<Piece>>
    ensures { IfOk result (AreFilesOf snapshot.now) }
{
    let mut pieces = Seq::new(alloc);
    for number in 0..snapshot.files() {
        let entry = snapshot.entry(number);
        let path = snapshot.path(number);
        pieces.push(make_piece(alloc, path, entry, snapshot.config(), number)?)?;
    }
    Ok(pieces)
}
