//! The parts of bytes round a byte.

ghost use Rattle.std.specs.Prelude.{◌≡◌, ◌==◌};
ghost use Rattle.std.specs.List.{after_last, before_first, before_last};

use memchr::{memchr, memrchr};

/// What stands before the first of these bytes, or all where there isn't one.
#[tactic(auto, using(crate::proofs::CutBytes::first_none, crate::proofs::CutBytes::first_some))]
pub fn before_first(byte: u8, bytes: &[u8]) -> &[u8]
    ensures { result.now ≡ before_first (λ b. b == byte) bytes.now }
{
    match memchr(byte, bytes) {
        None => bytes,
        Some(place) => &bytes[..place],
    }
}

/// What stands before the last of these bytes, or nothing where there isn't one.
#[tactic(auto, using(crate::proofs::CutBytes::front_none, crate::proofs::CutBytes::front_some))]
pub fn before_last(byte: u8, bytes: &[u8]) -> &[u8]
    ensures { result.now ≡ before_last (λ b. b == byte) bytes.now }
{
    match memrchr(byte, bytes) {
        None => &bytes[..0],
        Some(place) => &bytes[..place],
    }
}

/// What stands after the last of these bytes, or all where there isn't one.
#[tactic(auto, using(crate::proofs::CutBytes::last_none, crate::proofs::CutBytes::last_some))]
pub fn after_last(byte: u8, bytes: &[u8]) -> &[u8]
    ensures { result.now ≡ after_last (λ b. b == byte) bytes.now }
{
    match memrchr(byte, bytes) {
        None => bytes,
        Some(place) => &bytes[place + 1..],
    }
}
