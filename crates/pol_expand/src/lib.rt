//! What types and attributes expand to, by the policy's map of types to attributes; and the stored ends of rules that hold a type.
//!
//! A rule names types and attributes. An attribute expands to the types that have it, a type to itself; the other way round, a type is
//! held by itself and by its attributes.
//!
//! ```text
//! let types = type_map(alloc, &policy)?;
//! let members = types.expansion(alloc, attribute)?; // the types that have it
//! let ends = ends_holding(alloc, &policy, &AnyEnd, node)?; // the type, and its attributes
//! let joins = is_rule_from_to(&policy, &rule, source, target);
//! ```
#![tactic(auto)]

mod building;
mod ends_in_use;
mod expansions;
mod flavours;
mod inverse;
mod joined_types;
mod laws;
mod plain_types;
mod policy_map;
mod stored_ends;
mod type_list;

pub use ends_in_use::{AnyEnd, EndsInUse};
pub use expansions::TypeMap;
pub use flavours::is_flavour;
pub use joined_types::{holds_type, is_rule_from_to};
pub use laws::expansions_stand_by_value;
pub use plain_types::{are_two_types, is_type, types_outside};
pub use policy_map::type_map;
pub use stored_ends::{ends_holding, types_of, values_in};
