//! The paths that belong to a tree of Go files.

ghost use Rattle.std.specs.Prelude.{◌≡◌, ◌↔◌, All, IsTrue, codes, nat_eq};
ghost use Rattle.std.specs.List.{ends_with};
ghost use Rattle.tree_io.specs.Path.{Belongs, IsPathByte, IsPlainSegment, IsSourceFolder};
ghost use Rattle.tree_io.specs.Path.{segments_of, folders_of};

/// The most bytes that a path may have.
pub const MAX_PATH_BYTES: usize = 4096;

/// Whether a path, relative to the root and with `/` between its segments, is one of a Go file that
/// is scanned. It ends in `.go`; it has at most [`MAX_PATH_BYTES`] bytes, and none below 0x20 or
/// equal to 0x7F; no segment is empty or begins with `.` or `_`; no folder is `vendor` or
/// `testdata`. It takes no memory.
pub fn belongs(path: &str) -> bool
    ensures { IsTrue result ↔ Belongs path.now }
{
    path.len() <= MAX_PATH_BYTES
        && has_go_suffix(path)
        && has_path_bytes(path)
        && has_source_segments(path)
}

fn has_go_suffix(path: &str) -> bool
    ensures { result ≡ ends_with nat_eq path.now (codes ".go") }
{
    path.ends_with(".go")
}

/// Whether no byte of a text is a control character of ASCII.
pub(crate) fn has_path_bytes(text: &str) -> bool
    ensures { IsTrue result ↔ All IsPathByte text.now }
{
    text.as_bytes().iter().all(|b| *b >= 0x20 && *b != 0x7f)
}

/// Whether a segment of a path is not empty and begins with neither `.` nor `_`.
fn is_plain_segment(segment: &str) -> bool
    ensures { IsTrue result ↔ IsPlainSegment segment.now }
{
    match segment.as_bytes() {
        [] => false,
        [first, ..] => *first != b'.' && *first != b'_',
    }
}

/// Whether a segment can be that of a folder whose files belong.
pub(crate) fn is_source_folder(segment: &str) -> bool
    ensures { IsTrue result ↔ (IsPlainSegment segment.now × IsSourceFolder segment.now) }
{
    is_plain_segment(segment) && segment != "vendor" && segment != "testdata"
}

/// Whether all segments of a path, and the folders among them, are those of a path that belongs.
fn has_source_segments(path: &str) -> bool
    ensures { IsTrue result
        ↔ (All IsPlainSegment (segments_of path.now) × All IsSourceFolder (folders_of path.now)) }
{
    let mut rest = path;
    while let Some((folder, after)) = rest.split_once('/') {
        if !is_source_folder(folder) {
            return false;
        }
        rest = after;
    }
    is_plain_segment(rest)
}
