use pol_cursor::OwnedList;

/// Access vectors, owned.
pub type AvRecList = OwnedList<AvRec>;

/// An access vector, owned: one rule of a policy.
#[derive(Drop)]
pub struct AvRec {
    /// The value of a type or an attribute.
    pub source: u16,
    /// The value of a type or an attribute.
    pub target: u16,
    /// The value of a class.
    pub class: u16,
    /// The kind of the rule, one of [`codes`](crate::codes), and the mark `AVTAB_ENABLED`, which is kept and has no meaning.
    pub specified: u16,
    /// What it grants, audits or makes.
    pub part: AvPart,
}

/// The last part of an access vector.
#[derive(Clone, Copy, Debug, PartialEq, Eq, Drop)]
pub enum AvPart {
    /// The permissions by their bits, or the value of a default type.
    Data(u32),
    /// The ioctl numbers of an extended rule.
    Extended {
        /// `AVTAB_XPERMS_IOCTLFUNCTION` or `AVTAB_XPERMS_IOCTLDRIVER` of [`codes`](crate::codes).
        xkind: u8,
        /// The driver, which is the high byte of the numbers. It is kept in whole drivers and has no meaning there.
        driver: u8,
        /// Bit b is bit b mod 8 of byte b / 8.
        bits: [u8; 32],
    },
}
