// How large a text may be.

/// The most bytes of a permission map, and of a checklist: 4 MiB.
pub const MAX_TEXT_BYTES: usize = 4 << 20;
