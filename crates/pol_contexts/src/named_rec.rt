//! The entry of a file system or a network interface, owned.

use pol_cursor::ByteList;
use pol_mls::ContextRec;

/// The contexts of a file system or a network interface, owned.
pub struct NamedRec {
    /// Its name.
    pub name: ByteList,
    /// Its own context.
    pub context: ContextRec,
    /// The context of its files, or of the packets that it receives.
    pub second_context: ContextRec,
}

// Its parts go in one call, wherever it is dropped.
impl Drop for NamedRec {
    fn drop(self) {
        let NamedRec {
            name,
            context,
            second_context,
        } = self;
    }
}
