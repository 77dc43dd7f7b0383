//! The symbols of a policy: roles, types, booleans, sensitivities and categories, each a record of its table.
//!
//! ```text
//! let table: SymbolTable<'_, Type> = read_whole_table(alloc, &mut cursor)?;
//! let first = table.view(0);
//! let is_attribute = first.flavour() == Some(Flavour::Attribute);
//! ```
#![tactic(auto)]

mod boolean_kind;
mod boolean_rec;
mod boolean_view;
mod boolean_write;
mod category_kind;
mod category_rec;
mod category_view;
mod category_write;
mod causes;
mod datum;
mod flags;
mod flavour;
mod laws;
mod role_kind;
mod role_rec;
mod role_view;
mod role_write;
mod sensitivity_kind;
mod sensitivity_rec;
mod sensitivity_view;
mod sensitivity_write;
mod symbol_references;
mod symbol_values;
mod type_kind;
mod type_rec;
mod type_view;
mod type_write;

pub use boolean_kind::Boolean;
pub use boolean_rec::{BooleanRec, BooleanRecList};
pub use boolean_view::{BooleanView, read_boolean};
pub use category_kind::Category;
pub use category_rec::{CategoryRec, CategoryRecList};
pub use category_view::{CategoryView, read_category};
pub use datum::{CopiedDatum, Datum, DatumKind, DatumView, ReferringDatum};
pub use flavour::Flavour;
pub use laws::{
    booleans_have_laws, categories_have_laws, roles_have_laws, sensitivities_have_laws,
    types_have_laws,
};
pub use pol_cursor::{
    write_record as write_boolean, write_record as write_category, write_record as write_role,
    write_record as write_sensitivity, write_record as write_type,
};
pub use role_kind::Role;
pub use role_rec::{RoleRec, RoleRecList};
pub use role_view::{RoleView, read_role};
pub use sensitivity_kind::Sensitivity;
pub use sensitivity_rec::{SensitivityRec, SensitivityRecList};
pub use sensitivity_view::{SensitivityView, read_sensitivity};
pub use symbol_references::dangling_bounds;
pub use symbol_values::{read_bounds, read_new_value, read_value};
pub use type_kind::Type;
pub use type_rec::{TypeRec, TypeRecList};
pub use type_view::{TypeView, read_type};
