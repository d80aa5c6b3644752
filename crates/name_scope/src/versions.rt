//! The name that the path of a package gives.

ghost use Rattle.std.specs.Prelude.{◌≡◌};
ghost use Rattle.std.specs.List.{list_all};
ghost use Rattle.name_scope.specs.Scopes.{is_digit, is_version, last_segment, name_segment};
ghost use Rattle.name_scope.specs.Scopes.{without_version};

/// Whether a byte is a digit of ASCII.
fn is_digit(b: u8) -> bool
    ensures { result ≡ is_digit b }
{
    b > b'/' && b < b':'
}

/// Whether bytes are a version: `v` and one or more digits.
fn is_version(text: &[u8]) -> bool
    ensures { result ≡ is_version text.now }
{
    text.len() > 1 && text[0] == b'v' && are_digits(&text[1..])
}

/// Whether all bytes are digits of ASCII.
fn are_digits(text: &[u8]) -> bool
    ensures { result ≡ list_all is_digit text.now }
{
    text.iter().all(|b| is_digit(*b))
}

fn last_segment(path: &str) -> &str
    ensures { result.now ≡ last_segment path.now }
{
    match path.rsplit_once('/') {
        Some((_, last)) => last,
        None => path,
    }
}

/// The segment that names a path: the last, and the one before it where the last is a version.
pub(crate) fn name_segment(path: &str) -> &str
    ensures { result.now ≡ name_segment path.now }
{
    match path.rsplit_once('/') {
        Some((front, last)) => {
            if is_version(last.as_bytes()) {
                last_segment(front)
            } else {
                last
            }
        }
        None => path,
    }
}

/// A segment without a `.` and a version at its end.
pub(crate) fn without_version(segment: &str) -> &str
    ensures { result.now ≡ without_version segment.now }
{
    match segment.rsplit_once('.') {
        Some((front, last)) => {
            if is_version(last.as_bytes()) {
                front
            } else {
                segment
            }
        }
        None => segment,
    }
}
