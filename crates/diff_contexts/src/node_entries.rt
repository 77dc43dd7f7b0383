//! The entries of all addresses.

ghost use Rattle.std.specs.Prelude.{◌≡◌, ◌++◌};

use crate::context_entries::ContextEntries;
use diff_entries::{Entries, Key, Part};
use pol_contexts::{Node6Rec, NodeRec};
use pol_fields::codes::{OCON_NODE, OCON_NODE6};
use std::alloc::{AllocError, Global};
use std::marker::Model;

/// The entries of IPv4 addresses, and then those of IPv6 addresses. Contracts see them.
#[derive(Drop)]
pub struct NodeEntries<'p, 'a> {
    first: ContextEntries<'p, 'a, NodeRec, OCON_NODE>,
    second: ContextEntries<'p, 'a, Node6Rec, OCON_NODE6>,
}

impl<'p, 'a> Model for NodeEntries<'p, 'a> {
    ghost use Rattle.std.specs.Prelude.{◌++◌, List};
    ghost use Rattle.diff_entries.specs.Entries.{Entry};

    ghost Value = { List Entry };

    ghost view = { λ e. e.first ++ e.second };
}

impl<'p, 'a> NodeEntries<'p, 'a> {
    /// The entries of both kinds of nodes, IPv4 before IPv6.
    pub fn new(
        first: ContextEntries<'p, 'a, NodeRec, OCON_NODE>,
        second: ContextEntries<'p, 'a, Node6Rec, OCON_NODE6>,
    ) -> NodeEntries<'p, 'a>
        ensures { result ≡ first.entry ++ second.entry }
    {
        NodeEntries { first, second }
    }
}

impl<'p, 'a> Entries for NodeEntries<'p, 'a> {
    ghost entries = { λ entries. entries };

    #[tactic(auto, using(crate::proofs::JoinedEntries::both_counted))]
    fn len(&self) -> usize {
        self.first.count() as usize + self.second.count() as usize
    }

    #[tactic(auto, using(crate::proofs::JoinedEntries::in_first, crate::proofs::JoinedEntries::in_second, crate::proofs::JoinedEntries::within_second))]
    fn key(&self, alloc: Global, number: usize) -> Result<Key, AllocError> {
        let count = self.first.count() as usize;
        if number < count {
            self.first.key(alloc, number)
        } else {
            self.second.key(alloc, number - count)
        }
    }

    #[tactic(auto, using(crate::proofs::JoinedEntries::in_first, crate::proofs::JoinedEntries::in_second, crate::proofs::JoinedEntries::within_second))]
    fn parts(&self, alloc: Global, number: usize) -> Result<Vec<Part<'_>>, AllocError> {
        let count = self.first.count() as usize;
        if number < count {
            self.first.parts(alloc, number)
        } else {
            self.second.parts(alloc, number - count)
        }
    }

    #[tactic(auto, using(crate::proofs::JoinedEntries::in_first, crate::proofs::JoinedEntries::in_second, crate::proofs::JoinedEntries::within_second))]
    fn push_statement(&self, number: usize, buffer: &mut Vec<u8>) -> Result<(), AllocError> {
        let count = self.first.count() as usize;
        if number < count {
            self.first.push_statement(number, buffer)
        } else {
            self.second.push_statement(number - count, buffer)
        }
    }

    #[tactic(auto, using(crate::proofs::JoinedEntries::in_first, crate::proofs::JoinedEntries::in_second, crate::proofs::JoinedEntries::within_second))]
    fn push_head(&self, number: usize, buffer: &mut Vec<u8>) -> Result<(), AllocError> {
        let count = self.first.count() as usize;
        if number < count {
            self.first.push_head(number, buffer)
        } else {
            self.second.push_head(number - count, buffer)
        }
    }
}
