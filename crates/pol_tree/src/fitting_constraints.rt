// Constraints.
ghost use Rattle.std.specs.Prelude.{◌≡◌, None};
ghost use Rattle.pol_constraints.specs.ConstraintRecord.{has_type_set, TypeSetFits, ItemFits, ConstraintFits};
ghost use Rattle.pol_tree.specs.RecordShapes.{shape_of_item, shape_of_constraint};

use crate::fitting::{Fitting, first_wrong, wrong_in, wrong_presence, wrong_within};
use pol_constraints::{ConstraintItem, ConstraintRec, TypeSet};
use pol_fields::Field;
use pol_fields::fields::CONSTRAINT_FLAGS;

impl Fitting for TypeSet {
    ghost shape = { λ version set. None };

    ghost fits = { λ version set. TypeSetFits set };

    #[tactic(auto, using(crate::proofs::FittingConstraints::type_set_fits), unfolding(crate::specs::OptionalParts::first_of))]
    fn wrong_part(&self, version: u32) -> Option<Field> {
        let _flags = self.flags;
        first_wrong(&[
            self.types.wrong_part(version),
            self.negated.wrong_part(version),
        ])
    }
}

impl Fitting for ConstraintItem {
    ghost shape = { shape_of_item };

    ghost fits = { ItemFits };

    fn wrong_part(&self, version: u32) -> Option<Field> {
        let _attr = self.attr;
        let _op = self.op;
        let has_names = self.kind == 5;
        first_wrong(&[
            wrong_presence(has_names, &self.names, CONSTRAINT_FLAGS),
            wrong_presence(
                has_type_set(version, self.kind),
                &self.type_set,
                CONSTRAINT_FLAGS,
            ),
            wrong_within(&self.names, version),
            wrong_within(&self.type_set, version),
        ])
    }
}

impl Fitting for ConstraintRec {
    ghost shape = { shape_of_constraint };

    ghost fits = { ConstraintFits };

    #[tactic(auto, using(crate::proofs::FittingConstraints::constraint_fits))]
    fn wrong_part(&self, version: u32) -> Option<Field> {
        let _permissions = self.permissions;
        wrong_in(&self.items, version)
    }
}

// Whether an item of that kind has a type set, in a policy of that version.
fn has_type_set(version: u32, kind: u32) -> bool
    ensures { result ≡ has_type_set version kind }
{
    kind == 5 && version >= 29
}
