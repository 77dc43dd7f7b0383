//! The cursor over the bytes of a policy, its faults, and the language in which records of the format are defined.
//!
//! A [`Cursor`] gives the numbers and bytes at its place, each a field, and moves on. A kind of record says how it is read
//! ([`ReadAlone`]), shown ([`RecordView`]) and copied ([`Copied`]); then one loop reads a list of them ([`read_counted`]), which keeps
//! their places ([`Records`]), and a list inside a record is walked ([`NestedRecords`]).
//!
//! ```text
//! let mut c = Cursor::new(bytes);
//! let magic = c.u32(HEADER_MAGIC)?;
//! let name = read_name(&mut c, FS_LEN, FS_NAME)?;
//! let allows: Records<'_, RoleAllow> = read_counted(alloc, &mut c, ROLEALLOW_COUNT)?;
//! ```
#![tactic(auto)]

mod bit_places;
mod copied;
mod cursor;
mod even_places;
mod file_name;
mod mention;
mod names;
mod nested_records;
mod owned_list;
mod part;
mod part_laws;
mod parts;
mod read_error;
mod record_list;
mod referring;

pub use bit_places::{has_bit, set_bit};
pub use copied::Copied;
pub use cursor::Cursor;
pub use file_name::{name_end, name_standing, read_name, read_name_bytes, read_name_length};
pub use mention::{Mention, first_dangling};
pub use names::{Names, dangling, push_name};
pub use nested_records::{NestedRecord, NestedRecords, end_of_nested, read_nested};
pub use owned_list::{ByteList, NumberList, OwnedList};
pub use part::{Part, Written, write_record};
pub use part_laws::{
    dependent_lists_have_laws, lists_have_laws, names_have_laws, numbers_have_laws,
    strings_have_laws,
};
pub use parts::{array_in, push_number, refuse, string_in, u16_in, u32_in, u64_in};
pub use read_error::ReadError;
pub use record_list::{
    ReadAfter, ReadAlone, Record, RecordView, Records, read_counted, read_records,
    read_records_after,
};
pub use referring::{Referring, check_records};
