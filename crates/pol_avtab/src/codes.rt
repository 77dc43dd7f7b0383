//! What access vectors specify, by libsepol's names.

/// Permissions that are granted.
pub const AVTAB_ALLOWED: u16 = 0x1;
/// Permissions whose grant is audited.
pub const AVTAB_AUDITALLOW: u16 = 0x2;
/// Permissions whose refusal is audited, so that the others are not.
pub const AVTAB_AUDITDENY: u16 = 0x4;
/// The type of a new object.
pub const AVTAB_TRANSITION: u16 = 0x10;
/// The type of a member of a polyinstantiated object.
pub const AVTAB_MEMBER: u16 = 0x20;
/// The type of a relabelled object.
pub const AVTAB_CHANGE: u16 = 0x40;
/// Extended permissions that are granted.
pub const AVTAB_XPERMS_ALLOWED: u16 = 0x100;
/// Extended permissions whose grant is audited.
pub const AVTAB_XPERMS_AUDITALLOW: u16 = 0x200;
/// Extended permissions whose refusal is not audited.
pub const AVTAB_XPERMS_DONTAUDIT: u16 = 0x400;
/// The bits of the three extended kinds.
pub const AVTAB_XPERMS: u16 = 0x700;
/// The mark of a rule of a condition in a running system. It has no meaning in a file.
pub const AVTAB_ENABLED: u16 = 0x8000;
/// Extended permissions that are ioctl numbers of one driver.
pub const AVTAB_XPERMS_IOCTLFUNCTION: u8 = 1;
/// Extended permissions that are whole drivers.
pub const AVTAB_XPERMS_IOCTLDRIVER: u8 = 2;
