//! Where a byte offset stands in a source.

ghost use Rattle.go_scanner.specs.LineIndex.{AreLineStarts, IsLineIndex, IsPosition};

/// Where a byte of a source stands, as an editor counts.
#[derive(Clone, Copy, Debug, PartialEq, Eq)]
pub struct Position {
    /// The line, counted from 1.
    pub line: u64,
    /// The column in that line, counted in bytes from 1.
    pub column: u64,
}

/// The index of the line that has an offset, by the offsets where the lines begin.
fn line_index(starts: &[u32], offset: u32) -> usize
    requires { AreLineStarts starts.now }
    ensures { IsLineIndex starts.now offset result }
{
    match starts.binary_search(&offset) {
        Ok(index) => index,
        Err(after) => after - 1,
    }
}

/// The position of a byte offset, by the offsets where the lines begin, as `scan` gives them. It
/// takes a number of steps in proportion to the logarithm of the number of lines.
pub fn position_of(starts: &[u32], offset: u32) -> Position
    requires { AreLineStarts starts.now }
    ensures { IsPosition starts.now offset result.line result.column }
{
    let index = line_index(starts, offset);
    Position {
        line: index as u64 + 1,
        column: u64::from(offset - starts[index]) + 1,
    }
}
