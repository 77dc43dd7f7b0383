//! The fields of the format, each by its word: `AV_SOURCE` is `av.source`.

use crate::Field;

// The header.
pub const HEADER_MAGIC: Field = Field { row: 1, part: 1 };

pub const HEADER_IDLEN: Field = Field { row: 1, part: 2 };

pub const HEADER_ID: Field = Field { row: 1, part: 3 };

pub const HEADER_VERSION: Field = Field { row: 1, part: 4 };

pub const HEADER_CONFIG: Field = Field { row: 1, part: 5 };

pub const HEADER_SYMTABS: Field = Field { row: 1, part: 6 };

pub const HEADER_CONTEXTS: Field = Field { row: 1, part: 7 };

// A bitmap.
pub const BITMAP_UNIT: Field = Field { row: 2, part: 1 };

pub const BITMAP_HIGHBIT: Field = Field { row: 2, part: 2 };

pub const BITMAP_COUNT: Field = Field { row: 2, part: 3 };

pub const BITMAP_STARTBIT: Field = Field { row: 2, part: 4 };

pub const BITMAP_MAP: Field = Field { row: 2, part: 5 };

// The numbers before the records of a symbol table.
pub const TABLE_NPRIM: Field = Field { row: 3, part: 1 };

pub const TABLE_NEL: Field = Field { row: 3, part: 2 };

// A permission.
pub const PERMISSION_LEN: Field = Field { row: 4, part: 1 };

pub const PERMISSION_VALUE: Field = Field { row: 4, part: 2 };

pub const PERMISSION_NAME: Field = Field { row: 4, part: 3 };

// A common.
pub const COMMON_LEN: Field = Field { row: 5, part: 1 };

pub const COMMON_VALUE: Field = Field { row: 5, part: 2 };

pub const COMMON_NPRIM: Field = Field { row: 5, part: 3 };

pub const COMMON_NEL: Field = Field { row: 5, part: 4 };

pub const COMMON_NAME: Field = Field { row: 5, part: 5 };

// A class.
pub const CLASS_LEN: Field = Field { row: 6, part: 1 };

pub const CLASS_LEN2: Field = Field { row: 6, part: 2 };

pub const CLASS_VALUE: Field = Field { row: 6, part: 3 };

pub const CLASS_NPRIM: Field = Field { row: 6, part: 4 };

pub const CLASS_NEL: Field = Field { row: 6, part: 5 };

pub const CLASS_NCONS: Field = Field { row: 6, part: 6 };

pub const CLASS_NAME: Field = Field { row: 6, part: 7 };

pub const CLASS_COMMON: Field = Field { row: 6, part: 8 };

pub const CLASS_NVALID: Field = Field { row: 6, part: 9 };

pub const CLASS_DEFAULT_USER: Field = Field { row: 6, part: 10 };

pub const CLASS_DEFAULT_ROLE: Field = Field { row: 6, part: 11 };

pub const CLASS_DEFAULT_RANGE: Field = Field { row: 6, part: 12 };

pub const CLASS_DEFAULT_TYPE: Field = Field { row: 6, part: 13 };

// A constraint.
pub const CONSTRAINT_PERMISSIONS: Field = Field { row: 7, part: 1 };

pub const CONSTRAINT_NEXPR: Field = Field { row: 7, part: 2 };

pub const CONSTRAINT_KIND: Field = Field { row: 7, part: 3 };

pub const CONSTRAINT_ATTR: Field = Field { row: 7, part: 4 };

pub const CONSTRAINT_OP: Field = Field { row: 7, part: 5 };

pub const CONSTRAINT_FLAGS: Field = Field { row: 7, part: 6 };

// A role.
pub const ROLE_LEN: Field = Field { row: 8, part: 1 };

pub const ROLE_VALUE: Field = Field { row: 8, part: 2 };

pub const ROLE_BOUNDS: Field = Field { row: 8, part: 3 };

pub const ROLE_NAME: Field = Field { row: 8, part: 4 };

// A type.
pub const TYPE_LEN: Field = Field { row: 9, part: 1 };

pub const TYPE_VALUE: Field = Field { row: 9, part: 2 };

pub const TYPE_PROPERTIES: Field = Field { row: 9, part: 3 };

pub const TYPE_BOUNDS: Field = Field { row: 9, part: 4 };

pub const TYPE_NAME: Field = Field { row: 9, part: 5 };

// A user.
pub const USER_LEN: Field = Field { row: 10, part: 1 };

pub const USER_VALUE: Field = Field { row: 10, part: 2 };

pub const USER_BOUNDS: Field = Field { row: 10, part: 3 };

pub const USER_NAME: Field = Field { row: 10, part: 4 };

// A boolean.
pub const BOOLEAN_VALUE: Field = Field { row: 11, part: 1 };

pub const BOOLEAN_STATE: Field = Field { row: 11, part: 2 };

pub const BOOLEAN_LEN: Field = Field { row: 11, part: 3 };

pub const BOOLEAN_NAME: Field = Field { row: 11, part: 4 };

// A sensitivity.
pub const SENSITIVITY_LEN: Field = Field { row: 12, part: 1 };

pub const SENSITIVITY_ISALIAS: Field = Field { row: 12, part: 2 };

pub const SENSITIVITY_NAME: Field = Field { row: 12, part: 3 };

pub const SENSITIVITY_SENS: Field = Field { row: 12, part: 4 };

// A category.
pub const CATEGORY_LEN: Field = Field { row: 13, part: 1 };

pub const CATEGORY_VALUE: Field = Field { row: 13, part: 2 };

pub const CATEGORY_ISALIAS: Field = Field { row: 13, part: 3 };

pub const CATEGORY_NAME: Field = Field { row: 13, part: 4 };

// A level.
pub const LEVEL_SENS: Field = Field { row: 14, part: 1 };

// A range of levels.
pub const RANGE_N: Field = Field { row: 15, part: 1 };

pub const RANGE_LOW: Field = Field { row: 15, part: 2 };

pub const RANGE_HIGH: Field = Field { row: 15, part: 3 };

// An access vector.
pub const AV_SOURCE: Field = Field { row: 16, part: 1 };

pub const AV_TARGET: Field = Field { row: 16, part: 2 };

pub const AV_CLASS: Field = Field { row: 16, part: 3 };

pub const AV_SPECIFIED: Field = Field { row: 16, part: 4 };

pub const AV_XKIND: Field = Field { row: 16, part: 5 };

pub const AV_DRIVER: Field = Field { row: 16, part: 6 };

pub const AV_BITS: Field = Field { row: 16, part: 7 };

pub const AV_DATA: Field = Field { row: 16, part: 8 };

// The table of access vectors.
pub const AVTAB_NEL: Field = Field { row: 17, part: 1 };

// The list of conditional nodes.
pub const CONDLIST_COUNT: Field = Field { row: 18, part: 1 };

// A conditional node.
pub const CONDNODE_STATE: Field = Field { row: 19, part: 1 };

pub const CONDNODE_NEXPR: Field = Field { row: 19, part: 2 };

pub const CONDNODE_KIND: Field = Field { row: 19, part: 3 };

pub const CONDNODE_BOOLEAN: Field = Field { row: 19, part: 4 };

pub const CONDNODE_NTRUE: Field = Field { row: 19, part: 5 };

pub const CONDNODE_NFALSE: Field = Field { row: 19, part: 6 };

// Role transitions.
pub const ROLETRANS_COUNT: Field = Field { row: 20, part: 1 };

pub const ROLETRANS_ROLE: Field = Field { row: 20, part: 2 };

pub const ROLETRANS_TYPE: Field = Field { row: 20, part: 3 };

pub const ROLETRANS_NEWROLE: Field = Field { row: 20, part: 4 };

pub const ROLETRANS_CLASS: Field = Field { row: 20, part: 5 };

// Role allows.
pub const ROLEALLOW_COUNT: Field = Field { row: 21, part: 1 };

pub const ROLEALLOW_ROLE: Field = Field { row: 21, part: 2 };

pub const ROLEALLOW_NEWROLE: Field = Field { row: 21, part: 3 };

// File-name transitions, one by one.
pub const NAMETRANS_COUNT: Field = Field { row: 22, part: 1 };

pub const NAMETRANS_LEN: Field = Field { row: 22, part: 2 };

pub const NAMETRANS_NAME: Field = Field { row: 22, part: 3 };

pub const NAMETRANS_SOURCE: Field = Field { row: 22, part: 4 };

pub const NAMETRANS_TARGET: Field = Field { row: 22, part: 5 };

pub const NAMETRANS_CLASS: Field = Field { row: 22, part: 6 };

pub const NAMETRANS_DEFAULT: Field = Field { row: 22, part: 7 };

// File-name transitions, in groups.
pub const NAMEGROUP_COUNT: Field = Field { row: 23, part: 1 };

pub const NAMEGROUP_LEN: Field = Field { row: 23, part: 2 };

pub const NAMEGROUP_NAME: Field = Field { row: 23, part: 3 };

pub const NAMEGROUP_TARGET: Field = Field { row: 23, part: 4 };

pub const NAMEGROUP_CLASS: Field = Field { row: 23, part: 5 };

pub const NAMEGROUP_NDATUM: Field = Field { row: 23, part: 6 };

pub const NAMEGROUP_DEFAULT: Field = Field { row: 23, part: 7 };

// A security context.
pub const CONTEXT_USER: Field = Field { row: 24, part: 1 };

pub const CONTEXT_ROLE: Field = Field { row: 24, part: 2 };

pub const CONTEXT_TYPE: Field = Field { row: 24, part: 3 };

// Initial SIDs.
pub const SID_COUNT: Field = Field { row: 25, part: 1 };

pub const SID_SID: Field = Field { row: 25, part: 2 };

// File systems.
pub const FS_COUNT: Field = Field { row: 26, part: 1 };

pub const FS_LEN: Field = Field { row: 26, part: 2 };

pub const FS_NAME: Field = Field { row: 26, part: 3 };

// Ranges of ports.
pub const PORT_COUNT: Field = Field { row: 27, part: 1 };

pub const PORT_PROTOCOL: Field = Field { row: 27, part: 2 };

pub const PORT_LOW: Field = Field { row: 27, part: 3 };

pub const PORT_HIGH: Field = Field { row: 27, part: 4 };

// Network interfaces.
pub const NETIF_COUNT: Field = Field { row: 28, part: 1 };

pub const NETIF_LEN: Field = Field { row: 28, part: 2 };

pub const NETIF_NAME: Field = Field { row: 28, part: 3 };

// IPv4 addresses.
pub const NODE_COUNT: Field = Field { row: 29, part: 1 };

pub const NODE_ADDRESS: Field = Field { row: 29, part: 2 };

pub const NODE_MASK: Field = Field { row: 29, part: 3 };

// How the files of file systems get their contexts.
pub const FSUSE_COUNT: Field = Field { row: 30, part: 1 };

pub const FSUSE_BEHAVIOUR: Field = Field { row: 30, part: 2 };

pub const FSUSE_LEN: Field = Field { row: 30, part: 3 };

pub const FSUSE_NAME: Field = Field { row: 30, part: 4 };

// IPv6 addresses.
pub const NODE6_COUNT: Field = Field { row: 31, part: 1 };

pub const NODE6_ADDRESS: Field = Field { row: 31, part: 2 };

pub const NODE6_MASK: Field = Field { row: 31, part: 3 };

// Ranges of InfiniBand partition keys.
pub const IBPKEY_COUNT: Field = Field { row: 32, part: 1 };

pub const IBPKEY_PREFIX: Field = Field { row: 32, part: 2 };

pub const IBPKEY_LOW: Field = Field { row: 32, part: 3 };

pub const IBPKEY_HIGH: Field = Field { row: 32, part: 4 };

// Ports of InfiniBand devices.
pub const IBENDPORT_COUNT: Field = Field { row: 33, part: 1 };

pub const IBENDPORT_LEN: Field = Field { row: 33, part: 2 };

pub const IBENDPORT_PORT: Field = Field { row: 33, part: 3 };

pub const IBENDPORT_NAME: Field = Field { row: 33, part: 4 };

// File systems of genfs, and their paths.
pub const GENFS_COUNT: Field = Field { row: 34, part: 1 };

pub const GENFS_LEN: Field = Field { row: 34, part: 2 };

pub const GENFS_FSTYPE: Field = Field { row: 34, part: 3 };

pub const GENFS_NPATHS: Field = Field { row: 34, part: 4 };

pub const GENFS_PATHLEN: Field = Field { row: 34, part: 5 };

pub const GENFS_PATH: Field = Field { row: 34, part: 6 };

pub const GENFS_CLASS: Field = Field { row: 34, part: 7 };

// Range transitions.
pub const RANGETRANS_COUNT: Field = Field { row: 35, part: 1 };

pub const RANGETRANS_SOURCE: Field = Field { row: 35, part: 2 };

pub const RANGETRANS_TARGET: Field = Field { row: 35, part: 3 };

pub const RANGETRANS_CLASS: Field = Field { row: 35, part: 4 };

// The end of the file.
pub const END_END: Field = Field { row: 36, part: 1 };
