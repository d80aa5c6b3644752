//! Why no item stands at a place.

ghost use Rattle.std.specs.Prelude.{◌≡◌, false};
ghost use Rattle.go_scanner.specs.Shapes.{fault_at};
ghost use Rattle.go_scanner.specs.TextBytes.{is_unclosed, opens_string};

use go_ast::Fault;
use go_literals::raw_length;

/// Whether the line ends before the closing quote of the literal whose opening quote stands before
/// these bytes. A `\` takes the next byte with it, unless that is a newline.
#[tactic(auto, unfolding(crate::specs::TextBytes::is_unclosed))]
fn is_unclosed(quote: u8, bytes: &[u8]) -> bool
    ensures { result ≡ is_unclosed quote false bytes.now }
{
    let mut escaped = false;
    for byte in bytes {
        if *byte == b'\n' {
            return true;
        }
        if escaped {
            escaped = false;
        } else if *byte == quote {
            return false;
        } else {
            escaped = *byte == b'\\';
        }
    }
    true
}

/// Whether a rune, a text or a raw text without its closing mark stands at the front.
fn opens_string(bytes: &[u8]) -> bool
    ensures { result ≡ opens_string bytes.now }
{
    match bytes {
        [quote @ (b'\'' | b'"'), rest @ ..] => is_unclosed(*quote, rest),
        [b'`', rest @ ..] => raw_length(rest) == rest.len(),
        _ => false,
    }
}

/// The fault of the bytes from this offset on, at whose front no item stands.
#[tactic(auto, unfolding(crate::specs::Shapes::fault_at))]
#[cold]
pub fn fault_at(offset: u32, bytes: &[u8]) -> Fault
    ensures { result ≡ fault_at offset bytes.now }
{
    if bytes.starts_with(b"/*") {
        Fault::OpenComment(offset)
    } else if opens_string(bytes) {
        Fault::OpenString(offset)
    } else {
        Fault::BadToken(offset)
    }
}
