//! The values inside one pair of parentheses.

ghost use Rattle.std.specs.Prelude.{◌≡◌, true};
ghost use Rattle.build_lines.specs.Reading.{no_values, value_of_frame, values, with_alternative};
ghost use Rattle.build_lines.specs.Reading.{with_operand};

/// What the operands so far give inside one pair of parentheses, or outside all.
#[derive(Clone, Copy)]
pub struct Frame {
    /// Whether one of the alternatives before the last `||` holds.
    pub any: bool,
    /// Whether all operands of the alternative after it hold.
    pub all: bool,
    /// Whether a `!` stands before the next operand.
    pub negated: bool,
}

impl Frame {
    /// Before the first operand.
    pub fn new() -> Frame
        ensures { result ≡ no_values }
    {
        Frame {
            any: false,
            all: true,
            negated: false,
        }
    }

    /// After an operand of this value.
    pub fn with_operand(self, value: bool) -> Frame
        ensures { result ≡ with_operand self value }
    {
        let value = if self.negated { !value } else { value };
        Frame {
            any: self.any,
            all: self.all && value,
            negated: false,
        }
    }

    /// After `||`.
    pub fn with_alternative(self) -> Frame
        ensures { result ≡ with_alternative self }
    {
        Frame {
            any: self.any || self.all,
            all: true,
            negated: false,
        }
    }

    /// After `!`.
    pub fn negate(self) -> Frame
        ensures { result ≡ values self.any self.all true }
    {
        Frame {
            negated: true,
            ..self
        }
    }

    /// The value of what stands inside the parentheses.
    pub fn value(self) -> bool
        ensures { result ≡ value_of_frame self }
    {
        self.any || self.all
    }
}
