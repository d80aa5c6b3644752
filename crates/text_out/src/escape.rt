//! The five HTML escapes.

ghost use Rattle.std.specs.Prelude.{◌≡◌, ◌∷◌, [], ◌++◌, MatchOption, OnErr, OnOk, take, vec_len};
ghost use Rattle.text_out.specs.Escape.{escape_of, escaped};

use std::alloc::AllocError;

/// The reference that stands for a byte, or `None` where the byte stands for itself.
fn reference_of(byte: u8) -> Option<&'static [u8]>
    ensures { MatchOption result (escape_of byte ≡ byte ∷ [])
        (λ reference. escape_of byte ≡ reference.now) }
{
    match byte {
        b'&' => Some(b"&amp;"),
        b'<' => Some(b"&lt;"),
        b'>' => Some(b"&gt;"),
        b'"' => Some(b"&quot;"),
        b'\'' => Some(b"&#39;"),
        _ => None,
    }
}

/// Appends a text with the five escapes, a run between two escapes at a time. After an error a part
/// of it may stand at the end.
pub fn append_escaped(bytes: &mut Vec<u8>, text: &[u8]) -> Result<(), AllocError>
    ensures ok { OnOk result (bytes.new.items ≡ bytes.old.items ++ escaped text.now) }
    ensures err { OnErr result (take (vec_len bytes.old) bytes.new.items ≡ bytes.old.items) }
{
    let mut start = 0;
    for (i, byte) in text.iter().enumerate() {
        if let Some(reference) = reference_of(*byte) {
            bytes.extend_from_slice(&text[start..i])?;
            bytes.extend_from_slice(reference)?;
            start = i + 1;
        }
    }
    bytes.extend_from_slice(&text[start..])?;
    Ok(())
}
