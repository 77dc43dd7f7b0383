//! The entries of capabilities.

ghost use Rattle.std.specs.Prelude.{◌≡◌, ◌<◌, ◌++◌, ◌∷◌, [], false, None, IfOk, OnOk};
ghost use Rattle.info_query.specs.Capabilities.{capability_listing};
ghost use Rattle.diff_capabilities.specs.CapabilityEntries.{capability_entries, capability_entry};

use crate::line_texts::line_texts;
use diff_entries::{Entries, Key, Part, Text};
use info_lines::Listing;
use info_query::lines_of;
use pol_read::Policy;
use std::alloc::{AllocError, Global};
use std::marker::Model;

/// The entries of the capabilities of a policy, in the order of their numbers. Contracts see them.
#[derive(Drop)]
pub struct CapabilityEntries {
    names: Vec<Text>,
}

impl Model for CapabilityEntries {
    ghost use Rattle.std.specs.Prelude.{List, map};
    ghost use Rattle.diff_entries.specs.Entries.{Entry};
    ghost use Rattle.diff_capabilities.specs.CapabilityEntries.{capability_entry};

    ghost Value = { List Entry };

    ghost view = { λ e. map capability_entry e.names.items };
}

impl CapabilityEntries {
    /// The entries of a policy's capabilities.
    pub fn new(alloc: Global, policy: &Policy<'_>) -> Result<CapabilityEntries, AllocError>
        ensures { IfOk result (λ entries. entries ≡ capability_entries policy.now) }
    {
        let names = capability_names(alloc, policy)?;
        Ok(CapabilityEntries { names })
    }
}

// The names of the capabilities of a policy, in the order of their numbers.
#[tactic(auto, unfolding(info_query::specs::Listings::lines_of))]
fn capability_names(alloc: Global, policy: &Policy<'_>) -> Result<Vec<Text>, AllocError>
    ensures { IfOk result (λ names. names.items ≡ capability_listing policy.now false None) }
{
    match lines_of(alloc, policy, false, Listing::Capabilities, None)? {
        Some(lines) => {
            let mut lines = lines;
            line_texts(alloc, &mut lines)
        }
        None => Ok(Vec::new(alloc)),
    }
}

impl Entries for CapabilityEntries {
    ghost entries = { λ entries. entries };

    fn len(&self) -> usize {
        self.names.len()
    }

    #[tactic(auto, using(crate::proofs::NamedEntries::key_at))]
    fn key(&self, alloc: Global, number: usize) -> Result<Key, AllocError> {
        name_key(alloc, &self.names[number])
    }

    #[tactic(auto, using(crate::proofs::NamedEntries::parts_at))]
    fn parts(&self, alloc: Global, number: usize) -> Result<Vec<Part<'_>>, AllocError> {
        no_parts(alloc, &self.names[number])
    }

    #[tactic(auto, using(crate::proofs::NamedEntries::statement_at))]
    fn push_statement(&self, number: usize, buffer: &mut Vec<u8>) -> Result<(), AllocError> {
        push_statement(buffer, &self.names[number])
    }

    #[tactic(auto, using(crate::proofs::NamedEntries::head_at))]
    fn push_head(&self, number: usize, buffer: &mut Vec<u8>) -> Result<(), AllocError> {
        push_head(buffer, &self.names[number])
    }
}

// The key of the capability of a name.
#[tactic(auto, unfolding(crate::specs::CapabilityEntries::capability_entry))]
fn name_key(alloc: Global, name: &Text) -> Result<Key, AllocError>
    ensures { IfOk result (λ key. key ≡ (capability_entry name.now).key) }
{
    Key::of_name(alloc, name.bytes())
}

// A capability has no parts.
#[tactic(auto, unfolding(crate::specs::CapabilityEntries::capability_entry))]
fn no_parts<'a>(alloc: Global, name: &'a Text) -> Result<Vec<Part<'a>>, AllocError>
    ensures { IfOk result (λ parts. parts.items ≡ (capability_entry name.now).parts) }
{
    Ok(Vec::new(alloc))
}

// Adds the statement of the capability of a name.
#[tactic(auto, unfolding(crate::specs::CapabilityEntries::capability_entry))]
fn push_statement(buffer: &mut Vec<u8>, name: &Text) -> Result<(), AllocError>
    ensures { OnOk result (buffer.new.items ≡ buffer.old.items ++ (capability_entry name.now).statement) }
{
    buffer.extend_from_slice(b"policycap ")?;
    buffer.extend_from_slice(name.bytes())?;
    buffer.push(b';')?;
    Ok(())
}

// Adds the beginning of that statement.
#[tactic(auto, unfolding(crate::specs::CapabilityEntries::capability_entry))]
fn push_head(buffer: &mut Vec<u8>, name: &Text) -> Result<(), AllocError>
    ensures { OnOk result (buffer.new.items ≡ buffer.old.items ++ (capability_entry name.now).head) }
{
    buffer.extend_from_slice(b"policycap ")?;
    buffer.extend_from_slice(name.bytes())
}
