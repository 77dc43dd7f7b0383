//! A condition has one value. A function with no code claims it.

ghost use Rattle.std.specs.Prelude.{◌≡◌, Bool, List};
ghost use Rattle.pol_expr.specs.declared.ConditionItem.{ConditionItem};
ghost use Rattle.pol_expr.specs.ConditionRecord.{IsCondition};
ghost use Rattle.bool_state.specs.BooleanStates.{Booleans, condition_value, HasValue};

/// The items of a condition have one value, whichever booleans are true, and it is that of `condition_value`.
pub fn conditions_have_one_value()
    ensures exists { (on : Booleans) (items : List ConditionItem) → IsCondition items → HasValue on items (condition_value on items) }
    ensures unique { (on : Booleans) (items : List ConditionItem) (v w : Bool) → HasValue on items v → HasValue on items w → v ≡ w }
{}
