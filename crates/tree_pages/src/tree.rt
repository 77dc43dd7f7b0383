// The bytes of a tree, in the order of the file.
use crate::lists::{Counted, Table, When};
use crate::paged::{Each, Paged, Whole};
use pol_contexts::has_infiniband;
use pol_file::HeaderRec;
use pol_trans::has_groups;
use pol_tree::Tree;
use se_items::WriteEnd;
use se_outside::Sink;
use std::alloc::AllocError;

/// A whole tree.
#[derive(Drop)]
pub struct WholeTree<'a>(pub &'a Tree);

impl<'a> Paged for WholeTree<'a> {
    ghost use Rattle.pol_tree.specs.TreeSpelling.{spell};

    ghost bytes = { λ tree. spell tree.0.now };

    #[tactic(auto, unfolding(pol_tree::specs::TreeSpelling::spell))]
    fn count(&self, start: u64, buffer: &mut Vec<u8>) -> Result<u64, AllocError> {
        let first = (Front(self.0), Symbols(self.0));
        ((first, Rules(self.0)), Labels(self.0)).count(start, buffer)
    }

    #[tactic(auto, unfolding(pol_tree::specs::TreeSpelling::spell))]
    fn send<S: Sink>(&self, buffer: &mut Vec<u8>, out: &mut S) -> Result<(), WriteEnd> {
        let first = (Front(self.0), Symbols(self.0));
        ((first, Rules(self.0)), Labels(self.0)).send(buffer, out)
    }
}

// What stands before the symbol tables.
#[derive(Drop)]
struct Front<'a>(&'a Tree);

impl<'a> Paged for Front<'a> {
    ghost use Rattle.pol_tree.specs.TreeSpelling.{spell_front};

    ghost bytes = { λ front. spell_front front.0.now };

    #[tactic(auto, unfolding(pol_tree::specs::TreeSpelling::spell_front))]
    fn count(&self, start: u64, buffer: &mut Vec<u8>) -> Result<u64, AllocError> {
        let header = HeaderRec {
            version: self.0.version,
            config: self.0.config,
        };
        Whole((header, &self.0.capabilities, &self.0.permissive)).count(start, buffer)
    }

    #[tactic(auto, unfolding(pol_tree::specs::TreeSpelling::spell_front))]
    fn send<S: Sink>(&self, buffer: &mut Vec<u8>, out: &mut S) -> Result<(), WriteEnd> {
        let header = HeaderRec {
            version: self.0.version,
            config: self.0.config,
        };
        Whole((header, &self.0.capabilities, &self.0.permissive)).send(buffer, out)
    }
}

// The symbol tables.
#[derive(Drop)]
struct Symbols<'a>(&'a Tree);

impl<'a> Paged for Symbols<'a> {
    ghost use Rattle.pol_tree.specs.TreeSpelling.{spell_symbols};

    ghost bytes = { λ symbols. spell_symbols symbols.0.now };

    #[tactic(auto, unfolding(pol_tree::specs::TreeSpelling::spell_symbols))]
    fn count(&self, start: u64, buffer: &mut Vec<u8>) -> Result<u64, AllocError> {
        let tree = self.0;
        let commons = Table(tree.nprims[0], &tree.commons);
        let classes = Table(tree.nprims[1], &tree.classes);
        let roles = Table(tree.nprims[2], &tree.roles);
        let types = Table(tree.nprims[3], &tree.types);
        let users = Table(tree.nprims[4], &tree.users);
        let booleans = Table(tree.nprims[5], &tree.booleans);
        let levels = Table(tree.nprims[6], &tree.levels);
        let categories = Table(tree.nprims[7], &tree.categories);
        let first = (((commons, classes), roles), types);
        ((((first, users), booleans), levels), categories).count(start, buffer)
    }

    #[tactic(auto, unfolding(pol_tree::specs::TreeSpelling::spell_symbols))]
    fn send<S: Sink>(&self, buffer: &mut Vec<u8>, out: &mut S) -> Result<(), WriteEnd> {
        let tree = self.0;
        let commons = Table(tree.nprims[0], &tree.commons);
        let classes = Table(tree.nprims[1], &tree.classes);
        let roles = Table(tree.nprims[2], &tree.roles);
        let types = Table(tree.nprims[3], &tree.types);
        let users = Table(tree.nprims[4], &tree.users);
        let booleans = Table(tree.nprims[5], &tree.booleans);
        let levels = Table(tree.nprims[6], &tree.levels);
        let categories = Table(tree.nprims[7], &tree.categories);
        let first = (((commons, classes), roles), types);
        ((((first, users), booleans), levels), categories).send(buffer, out)
    }
}

// The rules but for the range transitions.
#[derive(Drop)]
struct Rules<'a>(&'a Tree);

impl<'a> Paged for Rules<'a> {
    ghost use Rattle.pol_tree.specs.TreeSpelling.{spell_rules};

    ghost bytes = { λ rules. spell_rules rules.0.now };

    #[tactic(auto, unfolding(pol_tree::specs::TreeSpelling::spell_rules))]
    fn count(&self, start: u64, buffer: &mut Vec<u8>) -> Result<u64, AllocError> {
        let tree = self.0;
        let vectors = (Counted(&tree.avtab), Counted(&tree.condlist));
        let roles = (
            (vectors, Counted(&tree.roletrans)),
            Counted(&tree.roleallow),
        );
        (roles, NameTransitions(tree)).count(start, buffer)
    }

    #[tactic(auto, unfolding(pol_tree::specs::TreeSpelling::spell_rules))]
    fn send<S: Sink>(&self, buffer: &mut Vec<u8>, out: &mut S) -> Result<(), WriteEnd> {
        let tree = self.0;
        let vectors = (Counted(&tree.avtab), Counted(&tree.condlist));
        let roles = (
            (vectors, Counted(&tree.roletrans)),
            Counted(&tree.roleallow),
        );
        (roles, NameTransitions(tree)).send(buffer, out)
    }
}

// The file-name transitions, as groups from version 33 on.
#[derive(Drop)]
struct NameTransitions<'a>(&'a Tree);

impl<'a> Paged for NameTransitions<'a> {
    ghost use Rattle.pol_tree.specs.TreeSpelling.{spell_name_transitions};

    ghost bytes = { λ transitions. spell_name_transitions transitions.0.now };

    fn count(&self, start: u64, buffer: &mut Vec<u8>) -> Result<u64, AllocError> {
        let tree = self.0;
        if has_groups(tree.version) {
            Counted(&tree.namegroup).count(start, buffer)
        } else {
            Counted(&tree.nametrans).count(start, buffer)
        }
    }

    fn send<S: Sink>(&self, buffer: &mut Vec<u8>, out: &mut S) -> Result<(), WriteEnd> {
        let tree = self.0;
        if has_groups(tree.version) {
            Counted(&tree.namegroup).send(buffer, out)
        } else {
            Counted(&tree.nametrans).send(buffer, out)
        }
    }
}

// The tables of contexts.
#[derive(Drop)]
struct Contexts<'a>(&'a Tree);

impl<'a> Paged for Contexts<'a> {
    ghost use Rattle.pol_tree.specs.TreeSpelling.{spell_contexts};

    ghost bytes = { λ contexts. spell_contexts contexts.0.now };

    #[tactic(auto, unfolding(pol_tree::specs::TreeSpelling::spell_contexts))]
    fn count(&self, start: u64, buffer: &mut Vec<u8>) -> Result<u64, AllocError> {
        let tree = self.0;
        let (sid, fs) = (Counted(&tree.sid), Counted(&tree.fs));
        let (port, netif) = (Counted(&tree.port), Counted(&tree.netif));
        let (node, fsuse) = (Counted(&tree.node), Counted(&tree.fsuse));
        let node6 = Counted(&tree.node6);
        let keys = (Counted(&tree.ibpkey), Counted(&tree.ibendport));
        let infiniband = When(has_infiniband(tree.version), keys);
        let first = (((sid, fs), port), netif);
        ((((first, node), fsuse), node6), infiniband).count(start, buffer)
    }

    #[tactic(auto, unfolding(pol_tree::specs::TreeSpelling::spell_contexts))]
    fn send<S: Sink>(&self, buffer: &mut Vec<u8>, out: &mut S) -> Result<(), WriteEnd> {
        let tree = self.0;
        let (sid, fs) = (Counted(&tree.sid), Counted(&tree.fs));
        let (port, netif) = (Counted(&tree.port), Counted(&tree.netif));
        let (node, fsuse) = (Counted(&tree.node), Counted(&tree.fsuse));
        let node6 = Counted(&tree.node6);
        let keys = (Counted(&tree.ibpkey), Counted(&tree.ibendport));
        let infiniband = When(has_infiniband(tree.version), keys);
        let first = (((sid, fs), port), netif);
        ((((first, node), fsuse), node6), infiniband).send(buffer, out)
    }
}

// What stands behind the rules.
#[derive(Drop)]
struct Labels<'a>(&'a Tree);

impl<'a> Paged for Labels<'a> {
    ghost use Rattle.pol_tree.specs.TreeSpelling.{spell_labels};

    ghost bytes = { λ labels. spell_labels labels.0.now };

    #[tactic(auto, unfolding(pol_tree::specs::TreeSpelling::spell_labels))]
    fn count(&self, start: u64, buffer: &mut Vec<u8>) -> Result<u64, AllocError> {
        let tree = self.0;
        let (genfs, ranges) = (Counted(&tree.genfs), Counted(&tree.rangetrans));
        let rows = Each(tree.typemap.as_slice());
        (((Contexts(tree), genfs), ranges), rows).count(start, buffer)
    }

    #[tactic(auto, unfolding(pol_tree::specs::TreeSpelling::spell_labels))]
    fn send<S: Sink>(&self, buffer: &mut Vec<u8>, out: &mut S) -> Result<(), WriteEnd> {
        let tree = self.0;
        let (genfs, ranges) = (Counted(&tree.genfs), Counted(&tree.rangetrans));
        let rows = Each(tree.typemap.as_slice());
        (((Contexts(tree), genfs), ranges), rows).send(buffer, out)
    }
}
