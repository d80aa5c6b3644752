//! Operators on integers.

ghost use Rattle.std.specs.Prelude.{◌≡◌, ◌≤ℤ◌, pos};
ghost use Rattle.std.specs.Int.{int_shr};
ghost use Rattle.std.specs.Int.RustNames.{int_rem};
ghost use Rattle.const_eval.specs.Operators.{is_unary, is_multiplying, unary_value, binary_value};
ghost use Rattle.const_eval.specs.Operators.{divided, shifted, times_power};

/// An operator on integers (Go specification, "Operators").
#[derive(Clone, Copy)]
pub enum Operator {
    /// `+`.
    Add,
    /// `-`.
    Subtract,
    /// `|`.
    Or,
    /// `^`.
    Xor,
    /// `*`.
    Multiply,
    /// `/`.
    Divide,
    /// `%`.
    Remainder,
    /// `<<`.
    ShiftLeft,
    /// `>>`.
    ShiftRight,
    /// `&`.
    And,
    /// `&^`.
    AndNot,
}

impl Operator {
    /// Whether it may stand before one operand.
    pub fn is_unary(self) -> bool
        ensures { result ≡ is_unary self }
    {
        matches!(self, Operator::Add | Operator::Subtract | Operator::Xor)
    }

    /// Whether it binds tighter than the others.
    pub fn is_multiplying(self) -> bool
        ensures { result ≡ is_multiplying self }
    {
        !matches!(
            self,
            Operator::Add | Operator::Subtract | Operator::Or | Operator::Xor
        )
    }

    /// What it gives before one operand, or `None` where it can't stand there or the result isn't
    /// between -2^127 and 2^127 - 1.
    pub fn apply_unary(self, x: i128) -> Option<i128>
        ensures { result ≡ unary_value self x }
    {
        match self {
            Operator::Add => Some(x),
            Operator::Subtract => x.checked_neg(),
            Operator::Xor => Some(!x),
            _ => None,
        }
    }

    /// What it gives between two operands, or `None` where that isn't between -2^127 and
    /// 2^127 - 1, a divisor is 0, or a shift count isn't from 0 to 127.
    pub fn apply_binary(self, x: i128, y: i128) -> Option<i128>
        ensures { result ≡ binary_value self x y }
    {
        match self {
            Operator::Add => x.checked_add(y),
            Operator::Subtract => x.checked_sub(y),
            Operator::Or => Some(x | y),
            Operator::Xor => Some(x ^ y),
            Operator::Multiply => x.checked_mul(y),
            Operator::Divide => x.checked_div(y),
            Operator::Remainder => remainder(x, y),
            Operator::ShiftLeft => shifted_left(x, y),
            Operator::ShiftRight => shifted_right(x, y),
            Operator::And => Some(x & y),
            Operator::AndNot => Some(x & !y),
        }
    }
}

/// What is left of `x` after a division that cuts towards 0.
fn remainder(x: i128, y: i128) -> Option<i128>
    ensures { result ≡ divided int_rem x y }
{
    if y == 0 {
        return None;
    }
    // The least number has the remainder 0 by -1, though that quotient doesn't fit.
    Some(x.wrapping_rem(y))
}

/// The product of `x` and a power of two.
fn shifted_left(x: i128, count: i128) -> Option<i128>
    ensures { result ≡ shifted times_power x count }
{
    match count {
        0..=126 => x.checked_mul(1 << count),
        127 => farthest(x),
        _ => None,
    }
}

/// The product of `x` and 2^127.
fn farthest(x: i128) -> Option<i128>
    ensures { result ≡ shifted times_power x (pos 127) }
{
    match x {
        0 => Some(0),
        -1 => Some(i128::MIN),
        _ => None,
    }
}

/// The quotient of `x` by a power of two, cut downwards.
fn shifted_right(x: i128, count: i128) -> Option<i128>
    ensures { result ≡ shifted int_shr x count }
{
    if 0 <= count && count <= 127 {
        Some(x >> count)
    } else {
        None
    }
}
