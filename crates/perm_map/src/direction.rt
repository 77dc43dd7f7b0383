/// Which way information flows by a permission.
#[derive(Clone, Copy, Debug, PartialEq, Eq)]
pub enum Direction {
    /// From the target to the source: `r`.
    Read,
    /// From the source to the target: `w`.
    Write,
    /// Both ways: `b`.
    Both,
    /// No way: `n`.
    No,
    /// The permission is not mapped, and so flows no way: `u`.
    Unmapped,
}
