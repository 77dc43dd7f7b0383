// Access vectors, conditions and conditional nodes.
ghost use Rattle.std.specs.Prelude.{◌≡◌, None, is_some};
ghost use Rattle.pol_avtab.specs.AvRecord.{PartFits, AvFits};
ghost use Rattle.pol_avtab.specs.XPerms.{xperms_of};
ghost use Rattle.pol_expr.specs.ConditionRecord.{ItemFits, ConditionFits};
ghost use Rattle.pol_conditionals.specs.CondNodeRecord.{CondNodeFits};
ghost use Rattle.pol_tree.specs.RecordShapes.{shape_of_av, shape_of_condnode};

use crate::fitting::{Fitting, first_wrong, look_at_bytes, wrong_in, wrong_where};
use pol_avtab::{AvPart, AvRec};
use pol_conditionals::CondNodeRec;
use pol_expr::{ConditionItem, ConditionRec};
use pol_fields::Field;
use pol_fields::fields::AV_XKIND;

impl Fitting for ConditionItem {
    ghost shape = { λ version item. None };

    ghost fits = { λ version item. ItemFits item };

    #[tactic(auto, using(crate::proofs::FittingRules::item_fits))]
    fn wrong_part(&self, _version: u32) -> Option<Field> {
        let _kind = self.kind;
        let _boolean = self.boolean;
        None
    }
}

impl Fitting for ConditionRec {
    ghost shape = { λ version condition. None };

    ghost fits = { λ version condition. ConditionFits condition };

    #[tactic(auto, using(crate::proofs::FittingRules::condition_fits, crate::proofs::Wrongs::none_in))]
    fn wrong_part(&self, version: u32) -> Option<Field> {
        let _state = self.state;
        wrong_in(&self.items, version)
    }
}

impl Fitting for AvRec {
    ghost shape = { λ version av. shape_of_av av };

    ghost fits = { λ version av. AvFits av };

    #[tactic(auto, using(crate::proofs::FittingRules::av_fits))]
    fn wrong_part(&self, _version: u32) -> Option<Field> {
        let _source = self.source;
        let _target = self.target;
        let _class = self.class;
        let extended = self.specified & 0x700 != 0;
        wrong_where(is_extended(&self.part) != extended, AV_XKIND)
    }
}

impl Fitting for CondNodeRec {
    ghost shape = { λ version node. shape_of_condnode node };

    ghost fits = { λ version node. CondNodeFits node };

    #[tactic(auto, using(crate::proofs::FittingRules::condnode_fits), unfolding(crate::specs::OptionalParts::first_of))]
    fn wrong_part(&self, version: u32) -> Option<Field> {
        first_wrong(&[
            self.condition.wrong_part(version),
            wrong_in(&self.true_rules, version),
            wrong_in(&self.false_rules, version),
        ])
    }
}

// Whether the last part of an access vector is that of an extended one. Each number of the part is read.
fn is_extended(part: &AvPart) -> bool
    ensures is { result ≡ is_some (xperms_of part.now) }
    ensures fits { PartFits (is_some (xperms_of part.now)) part.now }
{
    match part {
        AvPart::Data(mask) => {
            let _mask = *mask;
            false
        }
        AvPart::Extended {
            xkind,
            driver,
            bits,
        } => {
            let _xkind = *xkind;
            let _driver = *driver;
            look_at_bytes(bits);
            true
        }
    }
}
