// Contexts, and the records that have them.
ghost use Rattle.pol_mls.specs.ContextRecord.{ContextFits};
ghost use Rattle.pol_contexts.specs.SidRecord.{SidFits};
ghost use Rattle.pol_contexts.specs.NamedRecord.{NamedFits};
ghost use Rattle.pol_contexts.specs.PortRecord.{PortFits};
ghost use Rattle.pol_contexts.specs.AddressRecord.{AddressFits};
ghost use Rattle.pol_contexts.specs.FsUseRecord.{FsUseFits};
ghost use Rattle.pol_contexts.specs.IbPkeyRecord.{IbPkeyFits};
ghost use Rattle.pol_contexts.specs.IbEndPortRecord.{IbEndPortFits};
ghost use Rattle.pol_genfs.specs.GenfsRecord.{PathFits, GenfsFits};
ghost use Rattle.pol_tree.specs.RecordShapes.{shape_of_context, shape_of_sid, shape_of_named, shape_of_port, shape_of_address, shape_of_fsuse, shape_of_ibpkey, shape_of_ibendport, shape_of_path, shape_of_genfs};

use crate::fitting::{Fitting, first_wrong, look_at_bytes, wrong_in};
use pol_contexts::{AddressRec, FsUseRec, IbEndPortRec, IbPkeyRec, NamedRec, PortRec, SidRec};
use pol_fields::Field;
use pol_genfs::{GenfsPathRec, GenfsRec};
use pol_mls::ContextRec;

impl Fitting for ContextRec {
    ghost shape = { λ version context. shape_of_context context };

    ghost fits = { λ version context. ContextFits context };

    #[tactic(auto, using(crate::proofs::FittingContexts::context_fits))]
    fn wrong_part(&self, version: u32) -> Option<Field> {
        let _user = self.user;
        let _role = self.role;
        let _type_value = self.type_value;
        self.range.wrong_part(version)
    }
}

impl Fitting for SidRec {
    ghost shape = { λ version entry. shape_of_sid entry };

    ghost fits = { λ version entry. SidFits entry };

    #[tactic(auto, using(crate::proofs::FittingContexts::sid_fits))]
    fn wrong_part(&self, version: u32) -> Option<Field> {
        let _sid = self.sid;
        self.context.wrong_part(version)
    }
}

impl Fitting for NamedRec {
    ghost shape = { λ version entry. shape_of_named entry };

    ghost fits = { λ version entry. NamedFits entry };

    #[tactic(auto, using(crate::proofs::FittingContexts::named_fits))]
    fn wrong_part(&self, version: u32) -> Option<Field> {
        first_wrong(&[
            self.context.wrong_part(version),
            self.second_context.wrong_part(version),
        ])
    }
}

impl Fitting for PortRec {
    ghost shape = { λ version entry. shape_of_port entry };

    ghost fits = { λ version entry. PortFits entry };

    #[tactic(auto, using(crate::proofs::FittingContexts::port_fits))]
    fn wrong_part(&self, version: u32) -> Option<Field> {
        let _protocol = self.protocol;
        let _low = self.low;
        let _high = self.high;
        self.context.wrong_part(version)
    }
}

impl<const WIDTH: usize> Fitting for AddressRec<WIDTH> {
    ghost shape = { λ version entry. shape_of_address entry };

    ghost fits = { λ version entry. AddressFits WIDTH entry };

    #[tactic(auto, using(crate::proofs::FittingContexts::address_fits))]
    fn wrong_part(&self, version: u32) -> Option<Field> {
        look_at_bytes(&self.address);
        look_at_bytes(&self.mask);
        self.context.wrong_part(version)
    }
}

impl Fitting for FsUseRec {
    ghost shape = { λ version entry. shape_of_fsuse entry };

    ghost fits = { λ version entry. FsUseFits entry };

    #[tactic(auto, using(crate::proofs::FittingContexts::fsuse_fits))]
    fn wrong_part(&self, version: u32) -> Option<Field> {
        let _behaviour = self.behaviour;
        self.context.wrong_part(version)
    }
}

impl Fitting for IbPkeyRec {
    ghost shape = { λ version entry. shape_of_ibpkey entry };

    ghost fits = { λ version entry. IbPkeyFits entry };

    #[tactic(auto, using(crate::proofs::FittingContexts::ibpkey_fits))]
    fn wrong_part(&self, version: u32) -> Option<Field> {
        look_at_bytes(&self.prefix);
        let _low = self.low;
        let _high = self.high;
        self.context.wrong_part(version)
    }
}

impl Fitting for IbEndPortRec {
    ghost shape = { λ version entry. shape_of_ibendport entry };

    ghost fits = { λ version entry. IbEndPortFits entry };

    #[tactic(auto, using(crate::proofs::FittingContexts::ibendport_fits))]
    fn wrong_part(&self, version: u32) -> Option<Field> {
        let _port = self.port;
        self.context.wrong_part(version)
    }
}

impl Fitting for GenfsPathRec {
    ghost shape = { λ version entry. shape_of_path entry };

    ghost fits = { λ version entry. PathFits entry };

    #[tactic(auto, using(crate::proofs::FittingContexts::path_fits))]
    fn wrong_part(&self, version: u32) -> Option<Field> {
        let _class = self.class;
        self.context.wrong_part(version)
    }
}

impl Fitting for GenfsRec {
    ghost shape = { λ version entry. shape_of_genfs entry };

    ghost fits = { λ version entry. GenfsFits entry };

    #[tactic(auto, using(crate::proofs::FittingContexts::genfs_fits))]
    fn wrong_part(&self, version: u32) -> Option<Field> {
        wrong_in(&self.paths, version)
    }
}
