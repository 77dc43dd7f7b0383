// The writer of trees.
ghost use Rattle.std.specs.Prelude.{◌≡◌, ◌++◌, OnOk, OnErr};
ghost use Rattle.pol_tree.specs.TreeSpelling.{spell};
ghost use Rattle.pol_write.specs.Soundness.{unsound, unsound_bytes, IsSound, Judges};

use crate::errors::{Unsound, WriteError};
use pol_cursor::{ReadError, Written};
use pol_fields::limits::MAX_POLICY_BYTES;
use pol_file::read_file;
use pol_tree::{Tree, wrong_part_of};
use std::alloc::Global;

/// Appends the bytes of a tree, which is sound then. The error is the first reason against it: a wrong optional part, too many bytes, or
/// the fault by which a reader refuses them. Nothing is appended then, nor where memory does not suffice.
#[tactic(auto, unfolding(crate::specs::Soundness::unsound), using(crate::proofs::WrittenTree::written_is_sound))]
pub fn write(alloc: Global, tree: &Tree, out: &mut Vec<u8>) -> Result<(), WriteError>
    ensures sound { Judges result (unsound tree.now) }
    ensures whole { OnOk result (IsSound tree.now) }
    ensures ok { OnOk result (out.new.items ≡ out.old.items ++ spell tree.now) }
    ensures err { OnErr result (out.new.items ≡ out.old.items) }
{
    match wrong_part_of(tree) {
        Some(field) => Err(WriteError::NotSound(Unsound::Shape(field))),
        None => append(alloc, tree, out),
    }
}

// Appends the bytes of a tree that a reader accepts.
fn append(alloc: Global, tree: &Tree, out: &mut Vec<u8>) -> Result<(), WriteError>
    ensures sound { Judges result (unsound_bytes (spell tree.now)) }
    ensures ok { OnOk result (out.new.items ≡ out.old.items ++ spell tree.now) }
    ensures err { OnErr result (out.new.items ≡ out.old.items) }
{
    let mut bytes = Vec::new(alloc);
    tree.write(&mut bytes)?;
    check(alloc, bytes.as_slice())?;
    out.extend_from_slice(bytes.as_slice())?;
    Ok(())
}

// Refuses bytes that are no policy.
fn check(alloc: Global, bytes: &[u8]) -> Result<(), WriteError>
    ensures { Judges result (unsound_bytes bytes.now) }
{
    if bytes.len() > MAX_POLICY_BYTES {
        return Err(WriteError::NotSound(Unsound::TooLong));
    }
    match read_file(alloc, bytes) {
        Ok(_) => Ok(()),
        Err(ReadError::Memory) => Err(WriteError::Memory),
        Err(ReadError::Fault(fault)) => Err(WriteError::NotSound(Unsound::Fault(fault))),
    }
}
