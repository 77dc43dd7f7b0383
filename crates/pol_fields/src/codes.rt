//! The numbers of the format that have names in libsepol, under these names.

/// How many symbol tables a policy has.
pub const SYM_NUM: u32 = 8;

// The tables of contexts, by their places in the file.

/// The initial SIDs.
pub const OCON_ISID: u8 = 0;

/// The file systems.
pub const OCON_FS: u8 = 1;

/// The ranges of ports.
pub const OCON_PORT: u8 = 2;

/// The network interfaces.
pub const OCON_NETIF: u8 = 3;

/// The IPv4 addresses.
pub const OCON_NODE: u8 = 4;

/// How the files of file systems get their contexts.
pub const OCON_FSUSE: u8 = 5;

/// The IPv6 addresses.
pub const OCON_NODE6: u8 = 6;

/// The ranges of InfiniBand partition keys.
pub const OCON_IBPKEY: u8 = 7;

/// The ports of InfiniBand devices.
pub const OCON_IBENDPORT: u8 = 8;

// The versions of the format that changed what this project reads.

/// The least version that is read.
pub const POLICYDB_VERSION_DEFAULT_TYPE: u32 = 28;

/// From this version on a constraint has the set of types that its names stand for.
pub const POLICYDB_VERSION_CONSTRAINT_NAMES: u32 = 29;

/// From this version on the ioctl numbers of a rule may be told one by one.
pub const POLICYDB_VERSION_XPERMS_IOCTL: u32 = 30;

/// From this version on there are the two tables of InfiniBand.
pub const POLICYDB_VERSION_INFINIBAND: u32 = 31;

/// From this version on file-name transitions stand in groups.
pub const POLICYDB_VERSION_COMP_FTRANS: u32 = 33;

/// The greatest version that is read: rules under conditions may be extended.
pub const POLICYDB_VERSION_COND_XPERMS: u32 = 34;

// How the files of a file system get their contexts.

/// By their extended attributes.
pub const SECURITY_FS_USE_XATTR: u32 = 1;

/// By the process that makes them and the file system.
pub const SECURITY_FS_USE_TRANS: u32 = 2;

/// By the process that makes them.
pub const SECURITY_FS_USE_TASK: u32 = 3;
