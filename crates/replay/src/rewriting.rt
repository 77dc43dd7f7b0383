// A policy is written back: it is read, copied as a tree, and the tree is written.
ghost use Rattle.std.specs.Prelude.{◌≡◌, OnOk};
ghost use Rattle.pol_tree.specs.TreeSpelling.{spell};

use pol_cursor::ReadError;
use pol_fields::fields::IBPKEY_COUNT;
use pol_fields::limits::MAX_POLICY_BYTES;
use pol_read::{Policy, read};
use pol_tree::{Tree, tree_of};
use pol_write::{Unsound, WriteError, write};
use std::alloc::{AllocError, Global};

/// Why a policy is not written back as itself.
#[derive(Clone, Copy, Debug, thiserror::Error)]
pub enum RewriteError {
    #[error("the policy is written back as other bytes")]
    OtherBytes,
    #[error("the policy is not written back")]
    NotSound,
    #[error("the policy is not refused as one of version 30, which has no InfiniBand records")]
    AsOlder,
    #[error("no memory to write the policy back")]
    Memory,
}

impl From<AllocError> for RewriteError {
    fn from(_error: AllocError) -> RewriteError {
        RewriteError::Memory
    }
}

impl From<WriteError> for RewriteError {
    fn from(error: WriteError) -> RewriteError {
        match error {
            WriteError::NotSound(_) => RewriteError::NotSound,
            WriteError::Memory => RewriteError::Memory,
        }
    }
}

/// Writes a policy back, which has to give the bytes that it was read from. One of version 31 with InfiniBand records is no policy of
/// version 30 then. Bytes that are no policy are not written.
pub fn rewrite(alloc: Global, bytes: &[u8]) -> Result<(), RewriteError> {
    let Some(tree) = tree_in(alloc, bytes)? else {
        return Ok(());
    };
    compare(alloc, &tree, bytes)?;
    if tree.version == 31 && !tree.ibpkey.is_empty() {
        return refuse_as_older(alloc, tree);
    }
    Ok(())
}

// The tree of the policy in bytes, if they are one.
fn tree_in(alloc: Global, bytes: &[u8]) -> Result<Option<Tree>, RewriteError> {
    if bytes.len() > MAX_POLICY_BYTES {
        return Ok(None);
    }
    match read(alloc, bytes) {
        Ok(policy) => copied(alloc, policy),
        Err(ReadError::Memory) => Err(RewriteError::Memory),
        Err(ReadError::Fault(_)) => Ok(None),
    }
}

// The tree of a policy, which is let go.
fn copied(alloc: Global, policy: Policy<'_>) -> Result<Option<Tree>, RewriteError> {
    let tree = tree_of(alloc, &policy);
    drop(policy);
    Ok(Some(tree?))
}

// Writes a tree, which has to give these bytes.
fn compare(alloc: Global, tree: &Tree, bytes: &[u8]) -> Result<(), RewriteError>
    ensures { OnOk result (spell tree.now ≡ bytes.now) }
{
    let mut written = Vec::new(alloc);
    write(alloc, tree, &mut written)?;
    if written.as_slice() == bytes {
        Ok(())
    } else {
        Err(RewriteError::OtherBytes)
    }
}

// Writes a tree with InfiniBand records as one of version 30, which has to be refused at the field of their number.
fn refuse_as_older(alloc: Global, mut tree: Tree) -> Result<(), RewriteError> {
    tree.version = 30;
    let mut written = Vec::new(alloc);
    match write(alloc, &tree, &mut written) {
        Err(WriteError::NotSound(Unsound::Shape(field))) if field == IBPKEY_COUNT => Ok(()),
        Err(WriteError::Memory) => Err(RewriteError::Memory),
        _ => Err(RewriteError::AsOlder),
    }
}
