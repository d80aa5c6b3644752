//! Values with the levels of their expressions.

ghost use Rattle.std.specs.Prelude.{◌≡◌, max};
ghost use Rattle.const_eval.specs.Values.{above, parenthesize, apply_unary, apply_binary};

use crate::operator::Operator;

/// The most levels that an expression may have.
const MAX_LEVELS: u32 = 100;

/// The value of an expression.
#[derive(Clone, Copy)]
pub struct Value {
    /// The number.
    pub number: i128,
    /// How many levels the expression has.
    pub levels: u32,
}

impl Value {
    /// A number one level above these, or `None` where that is one too many.
    fn above(levels: u32, number: i128) -> Option<Value>
        ensures { result ≡ above levels number }
    {
        if levels < MAX_LEVELS {
            Some(Value {
                number,
                levels: levels + 1,
            })
        } else {
            None
        }
    }

    /// The value in parentheses.
    pub fn parenthesize(self) -> Option<Value>
        ensures { result ≡ parenthesize self }
    {
        Value::above(self.levels, self.number)
    }

    /// The value after a unary operator.
    pub fn apply_unary(self, operator: Operator) -> Option<Value>
        ensures { result ≡ apply_unary operator self }
    {
        let number = operator.apply_unary(self.number)?;
        Value::above(self.levels, number)
    }

    /// The value before a binary operator and another value.
    pub fn apply_binary(self, operator: Operator, right: Value) -> Option<Value>
        ensures { result ≡ apply_binary operator self right }
    {
        let number = operator.apply_binary(self.number, right.number)?;
        Value::above(self.levels.max(right.levels), number)
    }
}
