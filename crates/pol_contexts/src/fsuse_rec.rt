//! The entry of how the files of a file system get their contexts, owned.

use pol_cursor::ByteList;
use pol_mls::ContextRec;

/// How the files of a file system get their contexts, owned.
#[derive(Drop)]
pub struct FsUseRec {
    /// 1 is xattr, 2 trans and 3 task.
    pub behaviour: u32,
    /// The name of the file system.
    pub name: ByteList,
    /// The context of the file system.
    pub context: ContextRec,
}
