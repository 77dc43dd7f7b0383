// Classes and users.
ghost use Rattle.std.specs.Prelude.{◌<◌, ◌^◌};
ghost use Rattle.pol_classes.specs.ClassRecord.{ClassFits};
ghost use Rattle.pol_symbols.specs.UserRecord.{UserFits};
ghost use Rattle.pol_tree.specs.RecordShapes.{shape_of_class, shape_of_user};

use crate::fitting::{Fitting, first_wrong, wrong_in};
use pol_classes::ClassRec;
use pol_fields::Field;
use pol_symbols::UserRec;

impl Fitting for ClassRec {
    ghost shape = { shape_of_class };

    ghost fits = { ClassFits };

    fn wrong_part(&self, version: u32) -> Option<Field> {
        let _value = self.value;
        let _nprim = self.nprim;
        look_at_defaults(self);
        first_wrong(&[
            wrong_in(&self.permissions, version),
            wrong_in(&self.constraints, version),
            wrong_in(&self.validatetrans, version),
        ])
    }
}

impl Fitting for UserRec {
    ghost shape = { λ version user. shape_of_user user };

    ghost fits = { λ version user. UserFits user };

    #[tactic(auto, using(crate::proofs::FittingSymbols::user_fits))]
    fn wrong_part(&self, version: u32) -> Option<Field> {
        let _value = self.value;
        let _bounds = self.bounds;
        first_wrong(&[
            self.roles.wrong_part(version),
            self.range.wrong_part(version),
            self.level.wrong_part(version),
        ])
    }
}

// Looks at the numbers that say what a new object has.
fn look_at_defaults(class: &ClassRec)
    ensures user { class.now.default_user < 2 ^ 32 }
    ensures role { class.now.default_role < 2 ^ 32 }
    ensures range { class.now.default_range < 2 ^ 32 }
    ensures kind { class.now.default_type < 2 ^ 32 }
{
    let _user = class.default_user;
    let _role = class.default_role;
    let _range = class.default_range;
    let _kind = class.default_type;
}
