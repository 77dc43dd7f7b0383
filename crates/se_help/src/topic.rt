// What can be asked of the program itself.

/// What can be asked of the program itself.
#[derive(Clone, Copy, Debug, PartialEq, Eq)]
pub enum Topic {
    /// How the program is used, and which tools there are.
    All,
    /// How `seinfo` is used.
    Info,
    /// How `sesearch` is used.
    Search,
    /// How `sedta` is used.
    Dom,
    /// How `seinfoflow` is used.
    Flow,
    /// How `seconvert` is used.
    Convert,
    /// How `sechecker` is used.
    Check,
    /// How `make` is used.
    Make,
    /// The version of the program, and those of the policies that it reads.
    Version,
}
