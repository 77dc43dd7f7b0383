//! The permissions of classes and commons, and the commons: records of the policy format.
//!
//! ```text
//! let commons = read_commons(alloc, &mut cursor)?;
//! let inherited = inherited_from(&commons, b"file");
//! let read = inherited.of_name(b"read").map(|permission| permission.value());
//! ```
#![tactic(auto)]

mod causes;
mod common_rec;
mod common_table;
mod common_view;
mod common_write;
mod kind;
mod laws;
mod permission_list;
mod permission_rec;
mod permission_view;
mod permission_write;

pub use causes::permission_count_cause;
pub use common_rec::{CommonRec, CommonRecList};
pub use common_table::{CommonList, find_common, inherited_from, read_commons};
pub use common_view::{CommonView, read_common};
pub use kind::Common;
pub use laws::{commons_have_laws, permissions_have_laws};
pub use permission_list::{PermissionList, permissions_end, read_permissions};
pub use permission_rec::{PermissionRec, PermissionRecList};
pub use permission_view::{PermissionView, read_permission};
pub use pol_cursor::{write_record as write_common, write_record as write_permission};
