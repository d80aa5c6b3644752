//! The run of bytes that a number may have.

ghost use Rattle.std.specs.Prelude.{◌≡◌, ◌<◌, length};
ghost use Rattle.std.specs.List.{starts_with};
ghost use Rattle.go_ast.specs.Numbers.{is_exponent_mark};
ghost use Rattle.go_ast.specs.Lexical.{begins_number, is_run_byte, goes_on, run_after};
ghost use Rattle.go_ast.specs.Lexical.{is_hexadecimal, number_run};

/// Whether the run of a number begins at the front: a digit, or a full stop before a digit.
pub fn begins_number(rest: &[u8]) -> bool
    ensures { result ≡ begins_number rest.now }
{
    match rest {
        [] => false,
        [only] => only.is_ascii_digit(),
        [first, second, ..] => {
            first.is_ascii_digit() || (*first == b'.' && second.is_ascii_digit())
        }
    }
}

/// Whether a byte is a letter, a digit, an underscore or a full stop.
fn is_run_byte(byte: u8) -> bool
    ensures { result ≡ is_run_byte byte }
{
    byte.is_ascii_alphanumeric() || byte == b'_' || byte == b'.'
}

/// Whether a byte marks an exponent.
pub fn is_exponent_mark(hexadecimal: bool, byte: u8) -> bool
    ensures { result ≡ is_exponent_mark hexadecimal byte }
{
    if hexadecimal {
        byte == b'p' || byte == b'P'
    } else {
        byte == b'e' || byte == b'E'
    }
}

/// Whether a byte belongs to the run of a number after the byte before it.
fn goes_on(hexadecimal: bool, before: u8, byte: u8) -> bool
    ensures { result ≡ goes_on hexadecimal before byte }
{
    is_run_byte(byte) || ((byte == b'+' || byte == b'-') && is_exponent_mark(hexadecimal, before))
}

/// How many bytes belong to the run after the byte before them.
fn length_after(hexadecimal: bool, mut before: u8, rest: &[u8]) -> usize
    ensures { result ≡ length (run_after hexadecimal before rest.now) }
{
    for (i, byte) in rest.iter().enumerate() {
        if !goes_on(hexadecimal, before, *byte) {
            return i;
        }
        before = *byte;
    }
    rest.len()
}

/// Whether the bytes begin as a hexadecimal number does.
pub fn is_hexadecimal(rest: &[u8]) -> bool
    ensures { result ≡ is_hexadecimal rest.now }
{
    rest.starts_with(b"0x") || rest.starts_with(b"0X")
}

/// The longest run of bytes that a number may have, from the front.
pub fn number_run(rest: &[u8]) -> &[u8]
    requires { 0 < length rest.now }
    ensures { result.now ≡ number_run rest.now }
{
    let length = 1 + length_after(is_hexadecimal(rest), rest[0], &rest[1..]);
    &rest[..length]
}
