// The bytes of a tree, part by part in the order of the file.
use crate::counted::{Counted, SymbolRecords};
use crate::tree::Tree;
use pol_contexts::has_infiniband;
use pol_cursor::Written;
use pol_file::HeaderRec;
use pol_trans::has_groups;
use std::alloc::AllocError;

impl Written for Tree {
    ghost use Rattle.pol_tree.specs.TreeSpelling.{spell};

    ghost spelling = { spell };

    #[tactic(auto, unfolding(crate::specs::TreeSpelling::spell))]
    fn write(&self, out: &mut Vec<u8>) -> Result<(), AllocError> {
        (Front(self), Symbols(self), Rules(self), Labels(self)).write(out)
    }
}

// What stands before the symbol tables.
#[derive(Drop)]
struct Front<'a>(&'a Tree);

impl<'a> Written for Front<'a> {
    ghost use Rattle.pol_tree.specs.TreeSpelling.{spell_front};

    ghost spelling = { λ front. spell_front front.0.now };

    #[tactic(auto, unfolding(crate::specs::TreeSpelling::spell_front))]
    fn write(&self, out: &mut Vec<u8>) -> Result<(), AllocError> {
        let header = HeaderRec {
            version: self.0.version,
            config: self.0.config,
        };
        (header, &self.0.capabilities, &self.0.permissive).write(out)
    }
}

// The symbol tables.
#[derive(Drop)]
struct Symbols<'a>(&'a Tree);

impl<'a> Written for Symbols<'a> {
    ghost use Rattle.pol_tree.specs.TreeSpelling.{spell_symbols};

    ghost spelling = { λ symbols. spell_symbols symbols.0.now };

    #[tactic(auto, unfolding(crate::specs::TreeSpelling::spell_symbols))]
    fn write(&self, out: &mut Vec<u8>) -> Result<(), AllocError> {
        let tree = self.0;
        let commons = SymbolRecords(tree.nprims[0], &tree.commons);
        let classes = SymbolRecords(tree.nprims[1], &tree.classes);
        let roles = SymbolRecords(tree.nprims[2], &tree.roles);
        let types = SymbolRecords(tree.nprims[3], &tree.types);
        let users = SymbolRecords(tree.nprims[4], &tree.users);
        let booleans = SymbolRecords(tree.nprims[5], &tree.booleans);
        let levels = SymbolRecords(tree.nprims[6], &tree.levels);
        let categories = SymbolRecords(tree.nprims[7], &tree.categories);
        let first = (commons, classes, roles, types);
        (first, (users, booleans, levels, categories)).write(out)
    }
}

// The rules but for the range transitions.
#[derive(Drop)]
struct Rules<'a>(&'a Tree);

impl<'a> Written for Rules<'a> {
    ghost use Rattle.pol_tree.specs.TreeSpelling.{spell_rules};

    ghost spelling = { λ rules. spell_rules rules.0.now };

    #[tactic(auto, unfolding(crate::specs::TreeSpelling::spell_rules))]
    fn write(&self, out: &mut Vec<u8>) -> Result<(), AllocError> {
        let tree = self.0;
        let vectors = (Counted(&tree.avtab), Counted(&tree.condlist));
        let roles = (Counted(&tree.roletrans), Counted(&tree.roleallow));
        (vectors, roles, NameTransitions(tree)).write(out)
    }
}

// The file-name transitions, as groups from version 33 on.
#[derive(Drop)]
struct NameTransitions<'a>(&'a Tree);

impl<'a> Written for NameTransitions<'a> {
    ghost use Rattle.pol_tree.specs.TreeSpelling.{spell_name_transitions};

    ghost spelling = { λ transitions. spell_name_transitions transitions.0.now };

    fn write(&self, out: &mut Vec<u8>) -> Result<(), AllocError> {
        let tree = self.0;
        if has_groups(tree.version) {
            Counted(&tree.namegroup).write(out)
        } else {
            Counted(&tree.nametrans).write(out)
        }
    }
}

// The tables of contexts.
#[derive(Drop)]
struct Contexts<'a>(&'a Tree);

impl<'a> Written for Contexts<'a> {
    ghost use Rattle.pol_tree.specs.TreeSpelling.{spell_contexts};

    ghost spelling = { λ contexts. spell_contexts contexts.0.now };

    #[tactic(auto, unfolding(crate::specs::TreeSpelling::spell_contexts))]
    fn write(&self, out: &mut Vec<u8>) -> Result<(), AllocError> {
        let tree = self.0;
        let sid = Counted(&tree.sid);
        let (fs, port) = (Counted(&tree.fs), Counted(&tree.port));
        let (netif, node) = (Counted(&tree.netif), Counted(&tree.node));
        let (fsuse, node6) = (Counted(&tree.fsuse), Counted(&tree.node6));
        let behind = (fsuse, node6, Infiniband(tree));
        ((sid, fs, port, netif), (node, behind)).write(out)
    }
}

// The tables of InfiniBand, from version 31 on.
#[derive(Drop)]
struct Infiniband<'a>(&'a Tree);

impl<'a> Written for Infiniband<'a> {
    ghost use Rattle.pol_tree.specs.TreeSpelling.{spell_infiniband};

    ghost spelling = { λ tables. spell_infiniband tables.0.now };

    #[tactic(auto, using(pol_cursor::proofs::Writings::gains_nothing))]
    fn write(&self, out: &mut Vec<u8>) -> Result<(), AllocError> {
        let tree = self.0;
        if has_infiniband(tree.version) {
            (Counted(&tree.ibpkey), Counted(&tree.ibendport)).write(out)
        } else {
            Ok(())
        }
    }
}

// What stands behind the rules.
#[derive(Drop)]
struct Labels<'a>(&'a Tree);

impl<'a> Written for Labels<'a> {
    ghost use Rattle.pol_tree.specs.TreeSpelling.{spell_labels};

    ghost spelling = { λ labels. spell_labels labels.0.now };

    #[tactic(auto, unfolding(crate::specs::TreeSpelling::spell_labels))]
    fn write(&self, out: &mut Vec<u8>) -> Result<(), AllocError> {
        let tree = self.0;
        let (genfs, ranges) = (Counted(&tree.genfs), Counted(&tree.rangetrans));
        (Contexts(tree), genfs, ranges, &tree.typemap).write(out)
    }
}
