// Transitions and role allows.
ghost use Rattle.std.specs.Prelude.{None};
ghost use Rattle.pol_trans.specs.RoleTransRecord.{RoleTransFits};
ghost use Rattle.pol_trans.specs.RoleAllowRecord.{RoleAllowFits};
ghost use Rattle.pol_trans.specs.NameTransRecord.{NameTransFits};
ghost use Rattle.pol_trans.specs.NameGroupRecord.{NameDatumFits, NameGroupFits};
ghost use Rattle.pol_trans.specs.RangeTransRecord.{RangeTransFits};
ghost use Rattle.pol_tree.specs.RecordShapes.{shape_of_range_trans};

use crate::fitting::{Fitting, wrong_in};
use pol_fields::Field;
use pol_trans::{
    NameDatumRec, NameGroupRec, NameTransRec, RangeTransRec, RoleAllowRec, RoleTransRec,
};

impl Fitting for RoleTransRec {
    ghost shape = { λ version trans. None };

    ghost fits = { λ version trans. RoleTransFits trans };

    #[tactic(auto, using(crate::proofs::FittingTransitions::role_trans_fits))]
    fn wrong_part(&self, _version: u32) -> Option<Field> {
        let _role = self.role;
        let _type_value = self.type_value;
        let _newrole = self.newrole;
        let _class = self.class;
        None
    }
}

impl Fitting for RoleAllowRec {
    ghost shape = { λ version allow. None };

    ghost fits = { λ version allow. RoleAllowFits allow };

    #[tactic(auto, using(crate::proofs::FittingTransitions::role_allow_fits))]
    fn wrong_part(&self, _version: u32) -> Option<Field> {
        let _role = self.role;
        let _newrole = self.newrole;
        None
    }
}

impl Fitting for NameTransRec {
    ghost shape = { λ version trans. None };

    ghost fits = { λ version trans. NameTransFits trans };

    #[tactic(auto, using(crate::proofs::FittingTransitions::name_trans_fits))]
    fn wrong_part(&self, _version: u32) -> Option<Field> {
        let _source = self.source;
        let _target = self.target;
        let _class = self.class;
        let _default = self.default;
        None
    }
}

impl Fitting for NameDatumRec {
    ghost shape = { λ version datum. None };

    ghost fits = { λ version datum. NameDatumFits datum };

    #[tactic(auto, using(crate::proofs::FittingTransitions::name_datum_fits))]
    fn wrong_part(&self, version: u32) -> Option<Field> {
        let _default = self.default;
        self.sources.wrong_part(version)
    }
}

impl Fitting for NameGroupRec {
    ghost shape = { λ version group. None };

    ghost fits = { λ version group. NameGroupFits group };

    #[tactic(auto, using(crate::proofs::FittingTransitions::name_group_fits, crate::proofs::Wrongs::none_in))]
    fn wrong_part(&self, version: u32) -> Option<Field> {
        let _target = self.target;
        let _class = self.class;
        wrong_in(&self.datums, version)
    }
}

impl Fitting for RangeTransRec {
    ghost shape = { λ version trans. shape_of_range_trans trans };

    ghost fits = { λ version trans. RangeTransFits trans };

    #[tactic(auto, using(crate::proofs::FittingTransitions::range_trans_fits))]
    fn wrong_part(&self, version: u32) -> Option<Field> {
        let _source = self.source;
        let _target = self.target;
        let _class = self.class;
        self.range.wrong_part(version)
    }
}
