// The records of the symbol tables, but for classes and users. They have no optional part.
ghost use Rattle.std.specs.Prelude.{None};
ghost use Rattle.pol_commons.specs.PermissionRecord.{PermissionFits};
ghost use Rattle.pol_commons.specs.CommonRecord.{CommonFits};
ghost use Rattle.pol_datums.specs.RoleRecord.{RoleFits};
ghost use Rattle.pol_datums.specs.TypeRecord.{TypeFits};
ghost use Rattle.pol_datums.specs.BooleanRecord.{BooleanFits};
ghost use Rattle.pol_datums.specs.SensitivityRecord.{SensitivityFits};
ghost use Rattle.pol_datums.specs.CategoryRecord.{CategoryFits};

use crate::fitting::{Fitting, first_wrong, wrong_in};
use pol_commons::{CommonRec, PermissionRec};
use pol_datums::{BooleanRec, CategoryRec, RoleRec, SensitivityRec, TypeRec};
use pol_fields::Field;

impl Fitting for PermissionRec {
    ghost shape = { λ version permission. None };

    ghost fits = { λ version permission. PermissionFits permission };

    #[tactic(auto, using(crate::proofs::FittingDatums::permission_fits))]
    fn wrong_part(&self, _version: u32) -> Option<Field> {
        let _value = self.value;
        None
    }
}

impl Fitting for CommonRec {
    ghost shape = { λ version common. None };

    ghost fits = { λ version common. CommonFits common };

    #[tactic(auto, using(crate::proofs::FittingDatums::common_fits, crate::proofs::Wrongs::none_in))]
    fn wrong_part(&self, version: u32) -> Option<Field> {
        let _value = self.value;
        let _nprim = self.nprim;
        wrong_in(&self.permissions, version)
    }
}

impl Fitting for RoleRec {
    ghost shape = { λ version role. None };

    ghost fits = { λ version role. RoleFits role };

    #[tactic(auto, using(crate::proofs::FittingDatums::role_fits), unfolding(crate::specs::OptionalParts::first_of))]
    fn wrong_part(&self, version: u32) -> Option<Field> {
        let _value = self.value;
        let _bounds = self.bounds;
        first_wrong(&[
            self.dominates.wrong_part(version),
            self.types.wrong_part(version),
        ])
    }
}

impl Fitting for TypeRec {
    ghost shape = { λ version t. None };

    ghost fits = { λ version t. TypeFits t };

    #[tactic(auto, using(crate::proofs::FittingDatums::type_fits))]
    fn wrong_part(&self, _version: u32) -> Option<Field> {
        let _value = self.value;
        let _properties = self.properties;
        let _bounds = self.bounds;
        None
    }
}

impl Fitting for BooleanRec {
    ghost shape = { λ version boolean. None };

    ghost fits = { λ version boolean. BooleanFits boolean };

    #[tactic(auto, using(crate::proofs::FittingDatums::boolean_fits))]
    fn wrong_part(&self, _version: u32) -> Option<Field> {
        let _value = self.value;
        let _state = self.state;
        None
    }
}

impl Fitting for SensitivityRec {
    ghost shape = { λ version level. None };

    ghost fits = { λ version level. SensitivityFits level };

    #[tactic(auto, using(crate::proofs::FittingDatums::sensitivity_fits))]
    fn wrong_part(&self, version: u32) -> Option<Field> {
        let _isalias = self.isalias;
        let _sens = self.sens;
        self.categories.wrong_part(version)
    }
}

impl Fitting for CategoryRec {
    ghost shape = { λ version category. None };

    ghost fits = { λ version category. CategoryFits category };

    #[tactic(auto, using(crate::proofs::FittingDatums::category_fits))]
    fn wrong_part(&self, _version: u32) -> Option<Field> {
        let _value = self.value;
        let _isalias = self.isalias;
        None
    }
}
