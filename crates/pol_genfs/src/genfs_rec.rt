//! A file system of genfs and a path of it, owned.

use pol_cursor::{ByteList, OwnedList};
use pol_mls::ContextRec;

/// The context of the files of a file system whose paths begin with a path, owned.
#[derive(Drop)]
pub struct GenfsPathRec {
    /// The path.
    pub path: ByteList,
    /// The value of the class of these files, and 0 where it is any.
    pub class: u32,
    /// Their context.
    pub context: ContextRec,
}

pub type GenfsPathRecList = OwnedList<GenfsPathRec>;

/// The contexts of the files of a file system that has no labels of its own, owned.
#[derive(Drop)]
pub struct GenfsRec {
    /// The name of the file system.
    pub fstype: ByteList,
    /// Its paths, in file order.
    pub paths: GenfsPathRecList,
}

pub type GenfsRecList = OwnedList<GenfsRec>;
