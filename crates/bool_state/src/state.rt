//! The booleans that are true, and the values of conditions under them.

ghost use Rattle.std.specs.Prelude.{◌≡◌, ◌↔◌, ◌∷◌, ◌++◌, [], IfOk, OnOk, IsTrue};
ghost use Rattle.bool_state.specs.BooleanStates.{true_booleans, values_on, condition_value, HasValue};

use crate::given::{Given, is_on};
use pol_bitmap::Set;
use pol_datums::BooleanView;
use pol_expr::ConditionView;
use pol_symbols::Symbols;
use std::alloc::{AllocError, Global};
use std::marker::Model;

/// The booleans of a policy that are true; all others are false. Contracts see the set of their values.
#[derive(Drop)]
pub struct BoolState {
    on: Set,
}

impl Model for BoolState {
    ghost use Rattle.std.specs.FinSet as set;
    ghost use Rattle.pol_bitmap.specs.Nodes.{bits_of};
    ghost use Rattle.bool_state.specs.BooleanStates.{Booleans, values_code};

    ghost Value = { Booleans };

    ghost coded = { values_code };

    ghost view = { λ s. set.from_list (bits_of s.on) };
}

impl BoolState {
    /// The state of the booleans that the symbols declare: for each the last one that is given for its value, and where none is given the
    /// stored one. A given state whose value no boolean has changes nothing.
    ///
    /// The given states are gone through once for each boolean.
    pub fn new(
        alloc: Global,
        symbols: &Symbols<'_>,
        given: &[Given],
    ) -> Result<BoolState, AllocError>
        ensures { IfOk result (λ state. state ≡ true_booleans given.now symbols.now.booleans.records) }
    {
        let mut values = Vec::new(alloc);
        for i in 0..symbols.booleans.len() {
            push_on(&mut values, given, &symbols.boolean_view(i))?;
        }
        let on = Set::from_values(alloc, values)?;
        Ok(BoolState { on })
    }

    /// A state of the same booleans, which shares the set with this one.
    pub fn share(&self) -> Result<BoolState, AllocError>
        ensures { IfOk result (λ state. state ≡ self.now) }
    {
        Ok(BoolState {
            on: self.on.share()?,
        })
    }

    /// The truth value of a condition, which is the branch of its node whose rules count. It goes through the items of the condition once
    /// and takes no memory.
    pub fn value(&self, condition: &ConditionView<'_>) -> bool
        ensures tree { HasValue self.now condition.now.value.items result }
        ensures same { result ≡ condition_value self.now condition.now.value.items }
    {
        // the clause of the length says that the items are those of a condition
        let _ = condition.len();
        condition.eval(&self.on)
    }

    /// Whether the rules in a branch of the condition's node count: those in the true branch where its value is true, and those in the
    /// false branch where it is false. Takes no memory.
    pub fn enabled(&self, condition: &ConditionView<'_>, branch: bool) -> bool
        ensures { IsTrue result ↔ HasValue self.now condition.now.value.items branch }
    {
        self.value(condition) == branch
    }
}

// Appends the value of a boolean, where it is true.
fn push_on(
    values: &mut Vec<u32>,
    given: &[Given],
    boolean: &BooleanView<'_>,
) -> Result<(), AllocError>
    ensures { OnOk result (values.new.items ≡ values.old.items ++ values_on given.now (boolean.now ∷ [])) }
{
    if is_on(given, boolean) {
        values.push(boolean.value())?;
    }
    Ok(())
}
