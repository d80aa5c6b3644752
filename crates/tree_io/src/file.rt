//! A file of a real folder.

ghost use Rattle.std.specs.Prelude.{◌≡◌, ◌+◌, Ok, IfErr, IfOk, IfSome, IsErrAnd, OnOk};
ghost use Rattle.std.specs.Fs.{IsFile, file_type, metadata_len};
ghost use Rattle.plain_data.specs.Causes.{IsFailOf};
ghost use Rattle.tree_io.specs.Sources.{IsReadable, entry_of};

use crate::place::full_path;
use crate::tree::{Entry, MAX_FILE_BYTES};
use plain_data::{Bytes, IoFail};
use std::alloc::Global;
use std::fs::{Files, Metadata};
use std::io::Read;
use std::{fs, io};

/// The file at a path below the root, or the file that a link there leads to. Anything that isn't a
/// file is a fault.
pub(crate) fn read_file<R: Files>(
    rt: &R,
    alloc: Global,
    root: &str,
    path: &str,
) -> Result<Entry, IoFail>
    ensures { IfOk result IsReadable }
{
    let whole = full_path(alloc, root, path)?;
    let length = length_of_file(fs::metadata(rt, whole.as_str()))?;
    read_entry_from(alloc, fs::open(rt, whole.as_str()), length)
}

/// The length of a file, in bytes, by what the system says of its path.
pub(crate) fn length_of_file(metadata: io::Result<Metadata>) -> Result<u64, IoFail>
    ensures file { IfOk metadata (λ m. IsFile (file_type m) → result ≡ Ok (metadata_len m)) }
    ensures other { IfOk metadata (λ m. ¬ IsFile (file_type m) → result ≡ Err IoFail.Failed) }
    ensures error { IfErr metadata (λ error. IsErrAnd result (IsFailOf error)) }
{
    let metadata = metadata?;
    if !metadata.is_file() {
        return Err(IoFail::Failed);
    }
    Ok(metadata.len())
}

/// The entry of the bytes that remain in a reader, which may be an error of opening it. At most
/// [`MAX_FILE_BYTES`] and one byte are read; room is made at once for this many bytes as are
/// expected.
///
/// # Errors
///
/// - `Failed` where the reader is an error, or a read fails.
/// - `NoMemory` where that error says so, or an allocation is refused.
pub fn read_entry_from<R: Read + Drop>(
    alloc: Global,
    reader: io::Result<R>,
    expected: u64,
) -> Result<Entry, IoFail>
    ensures unopened { IfErr reader (λ error. IsErrAnd result (IsFailOf error)) }
    ensures told { IfOk reader (λ reader. IfOk result (λ entry. IfSome (R.remaining reader)
        (λ bytes. entry ≡ entry_of bytes))) }
    ensures readable { IfOk result IsReadable }
{
    let reader = reader?;
    let most = MAX_FILE_BYTES as u64;
    let mut bytes = Vec::with_capacity(alloc, expected.min(most) as usize + 1)?;
    let read = reader.take(most + 1).read_to_end(&mut bytes);
    entry_of_read(read, bytes)
}

/// The entry of bytes that were read to their end, or why they weren't.
pub(crate) fn entry_of_read(read: io::Result<usize>, bytes: Vec<u8>) -> Result<Entry, IoFail>
    ensures whole { OnOk read (result ≡ Ok (entry_of bytes.items)) }
    ensures error { IfErr read (λ error. IsErrAnd result (IsFailOf error)) }
    ensures readable { IfOk result IsReadable }
{
    read?;
    if bytes.len() > MAX_FILE_BYTES {
        return Ok(Entry::Large);
    }
    Ok(Entry::Bytes(Bytes::from_vec(bytes)))
}
