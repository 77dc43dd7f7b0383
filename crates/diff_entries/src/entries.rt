//! The entries of a component of a policy.
ghost use Rattle.std.specs.Prelude.{◌≡◌, ◌<◌, ◌++◌, List, IfOk, OnOk, length};
ghost use Rattle.diff_entries.specs.Entries.{Entry, entry_at};

use crate::keys::Key;
use crate::parts::Part;
use std::alloc::{AllocError, Global};

/// What is compared of a policy in one component, by numbers from 0 on in any order. Of several entries of one key the first counts.
pub trait Entries {
    /// All entries.
    ghost entries: { Self → List Entry };

    /// How many there are.
    fn len(&self) -> usize
        ensures { result ≡ length (entries self.now) };

    /// The key of one.
    fn key(&self, alloc: Global, number: usize) -> Result<Key, AllocError>
        requires { number < length (entries self.now) }
        ensures { IfOk result (λ key. key ≡ (entry_at (entries self.now) number).key) };

    /// Its parts.
    fn parts(&self, alloc: Global, number: usize) -> Result<Vec<Part<'_>>, AllocError>
        requires { number < length (entries self.now) }
        ensures { IfOk result (λ parts. parts.items ≡ (entry_at (entries self.now) number).parts) };

    /// Adds its statement to the buffer.
    fn push_statement(&self, number: usize, buffer: &mut Vec<u8>) -> Result<(), AllocError>
        requires { number < length (entries self.now) }
        ensures { OnOk result (buffer.new.items ≡ buffer.old.items ++ (entry_at (entries self.now) number).statement) };

    /// Adds the beginning of the statement, which tells the key, to the buffer.
    fn push_head(&self, number: usize, buffer: &mut Vec<u8>) -> Result<(), AllocError>
        requires { number < length (entries self.now) }
        ensures { OnOk result (buffer.new.items ≡ buffer.old.items ++ (entry_at (entries self.now) number).head) };
}
