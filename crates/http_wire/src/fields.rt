//! What the fields of a head say of the connection and of a body.

ghost use Rattle.std.specs.Prelude.{◌≡◌, ◌↔◌, length, reverse, All, IsTrue, codes};
ghost use Rattle.std.specs.List.{list_any};
ghost use Rattle.std.specs.Str.{str_to_ascii_lowercase};
ghost use Rattle.httparse.specs.Grammar.{skip_ows, trim_ows};
ghost use Rattle.httparse.specs.Spans.{IsHeaderWithin, header_bytes};
ghost use Rattle.http_wire.specs.Fields.{is_named, count_named, announces_body};
ghost use Rattle.http_wire.specs.Fields.{asks_close, between_commas, is_close};
ghost use Rattle.http_wire.specs.Front.{fields_at};
ghost use Rattle.http_wire.specs.Head.{KeepsFieldRules, closes};

use crate::request::MAX_FIELDS;
use httparse::spans::HeaderSpan;

/// Whether a head of version 1.`minor` with these fields keeps the rules on both.
pub fn keeps_field_rules(buffer: &[u8], minor: u8, fields: &[HeaderSpan]) -> bool
    requires { All (IsHeaderWithin (length buffer.now)) fields.now }
    ensures { IsTrue result ↔ KeepsFieldRules minor (fields_at buffer.now fields.now) }
{
    let hosts = count_named(buffer, fields, b"host");
    fields.len() <= MAX_FIELDS
        && hosts <= 1
        && (minor != 1 || hosts == 1)
        && count_named(buffer, fields, b"transfer-encoding") == 0
        && !some_announces_body(buffer, fields)
}

/// Whether the connection closes after the reply to a head of version 1.`minor` with these fields.
pub fn closes(buffer: &[u8], minor: u8, fields: &[HeaderSpan]) -> bool
    requires { All (IsHeaderWithin (length buffer.now)) fields.now }
    ensures { result ≡ closes minor (fields_at buffer.now fields.now) }
{
    minor == 0 || some_asks_close(buffer, fields)
}

/// Whether a field has this name, compared without case. `name` is in lower case.
fn is_named(buffer: &[u8], field: &HeaderSpan, name: &[u8]) -> bool
    requires within { IsHeaderWithin (length buffer.now) field.now }
    requires lower_case { str_to_ascii_lowercase name.now ≡ name.now }
    ensures { result ≡ is_named name.now (header_bytes buffer.now field.now) }
{
    field.name.of(buffer).eq_ignore_ascii_case(name)
}

/// How many of the fields have this name, compared without case. `name` is in lower case.
fn count_named(buffer: &[u8], fields: &[HeaderSpan], name: &[u8]) -> usize
    requires within { All (IsHeaderWithin (length buffer.now)) fields.now }
    requires lower_case { str_to_ascii_lowercase name.now ≡ name.now }
    ensures { result ≡ count_named name.now (fields_at buffer.now fields.now) }
{
    let mut count = 0;
    for field in fields {
        if is_named(buffer, field, name) {
            count += 1;
        }
    }
    count
}

/// Whether the field is a Content-Length other than `0`.
fn announces_body(buffer: &[u8], field: &HeaderSpan) -> bool
    requires { IsHeaderWithin (length buffer.now) field.now }
    ensures { result ≡ announces_body (header_bytes buffer.now field.now) }
{
    is_named(buffer, field, b"content-length") && field.value.of(buffer) != b"0".as_slice()
}

/// Whether some field is a Content-Length other than `0`.
fn some_announces_body(buffer: &[u8], fields: &[HeaderSpan]) -> bool
    requires { All (IsHeaderWithin (length buffer.now)) fields.now }
    ensures { result ≡ list_any announces_body (fields_at buffer.now fields.now) }
{
    for field in fields {
        if announces_body(buffer, field) {
            return true;
        }
    }
    false
}

/// Whether the field is a Connection that names the option `close`.
fn asks_close(buffer: &[u8], field: &HeaderSpan) -> bool
    requires { IsHeaderWithin (length buffer.now) field.now }
    ensures { result ≡ asks_close (header_bytes buffer.now field.now) }
{
    is_named(buffer, field, b"connection") && names_close(field.value.of(buffer))
}

/// Whether some field is a Connection that names the option `close`.
fn some_asks_close(buffer: &[u8], fields: &[HeaderSpan]) -> bool
    requires { All (IsHeaderWithin (length buffer.now)) fields.now }
    ensures { result ≡ list_any asks_close (fields_at buffer.now fields.now) }
{
    for field in fields {
        if asks_close(buffer, field) {
            return true;
        }
    }
    false
}

/// Whether the option `close` stands between two commas of a value.
fn names_close(value: &[u8]) -> bool
    ensures { result ≡ list_any is_close (between_commas value.now) }
{
    let mut rest = value;
    while let Some(comma) = rest.iter().position(|b| *b == b',') {
        if is_close(&rest[..comma]) {
            return true;
        }
        rest = &rest[comma + 1..];
    }
    is_close(rest)
}

/// Whether a text is the option `close`, in any case, with or without white space around it.
#[tactic(auto, unfolding(httparse::specs::Grammar::trim_ows))]
fn is_close(text: &[u8]) -> bool
    ensures { result ≡ is_close text.now }
{
    trim_end(trim_start(text)).eq_ignore_ascii_case(b"close")
}

/// The text from its first byte that is no space or tab.
fn trim_start(text: &[u8]) -> &[u8]
    ensures { result.now ≡ skip_ows text.now }
{
    let mut rest = text;
    while let [b' ' | b'\t', after @ ..] = rest {
        rest = after;
    }
    rest
}

/// The text up to its last byte that is no space or tab.
fn trim_end(text: &[u8]) -> &[u8]
    ensures { result.now ≡ reverse (skip_ows (reverse text.now)) }
{
    let mut rest = text;
    while let [before @ .., b' ' | b'\t'] = rest {
        rest = before;
    }
    rest
}
