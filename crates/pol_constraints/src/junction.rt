//! What stands between two operands of a constraint.

ghost use Rattle.std.specs.Prelude.{◌≡◌};
ghost use Rattle.pol_constraints.specs.ConstraintTexts.{junction_text};

/// The operators of constraints that stand between two operands.
#[derive(Clone, Copy, Debug, PartialEq, Eq)]
pub enum Junction {
    And,
    Or,
}

impl Junction {
    /// The text of the operator between two operands, with a space on each side.
    pub fn text(self) -> &'static [u8]
        ensures { result.now ≡ junction_text self }
    {
        match self {
            Junction::And => b" and ",
            Junction::Or => b" or ",
        }
    }
}
