//! The transitions and role allows of the policy format: role transitions, role allows, file-name transitions and range
//! transitions.
//!
//! A list is read by the call of its kind, as [`read_role_trans`]; one record by [`read_role_trans_entry`] and the like, for who goes
//! through a file without keeping lists.
//!
//! ```text
//! let transitions = read_role_trans(alloc, &mut cursor, version)?;
//! let first = transitions.view(0);
//! print(first.role(), first.type_value(), first.class(), first.newrole());
//! ```
#![tactic(auto)]

mod laws;
mod lists;
mod name_datum_rec;
mod name_datum_view;
mod name_group_rec;
mod name_group_view;
mod name_group_write;
mod name_trans;
mod name_trans_rec;
mod name_trans_view;
mod name_trans_write;
mod range_trans_rec;
mod range_trans_view;
mod range_trans_write;
mod role_allow_rec;
mod role_allow_view;
mod role_allow_write;
mod role_trans_rec;
mod role_trans_view;
mod role_trans_write;
mod transition;

pub use laws::{
    name_groups_have_laws, name_transitions_have_laws, range_transitions_have_laws,
    role_allows_have_laws, role_transitions_have_laws,
};
pub use lists::{
    NameGroupList, NameTransList, RangeTransList, RoleAllowList, RoleTransList, read_range_trans,
    read_role_allows, read_role_trans,
};
pub use name_datum_rec::{NameDatumRec, NameDatumRecList};
pub use name_datum_view::{NameDatum, NameDatumView};
pub use name_group_rec::{NameGroupRec, NameGroupRecList};
pub use name_group_view::{NameGroupView, read_name_group_entry};
pub use name_trans::{NameTrans, has_groups, read_name_trans};
pub use name_trans_rec::{NameTransRec, NameTransRecList};
pub use name_trans_view::{NameTransView, read_name_trans_entry};
pub use pol_cursor::{
    write_record as write_name_group, write_record as write_name_trans,
    write_record as write_range_trans, write_record as write_role_allow,
    write_record as write_role_trans,
};
pub use range_trans_rec::{RangeTransRec, RangeTransRecList};
pub use range_trans_view::{RangeTransView, read_range_trans_entry};
pub use role_allow_rec::{RoleAllowRec, RoleAllowRecList};
pub use role_allow_view::{RoleAllowView, read_role_allow_entry};
pub use role_trans_rec::{RoleTransRec, RoleTransRecList};
pub use role_trans_view::{RoleTransView, read_role_trans_entry};
pub use transition::{TransitionKind, TransitionView};
