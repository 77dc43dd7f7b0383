// The names that listings know.
ghost use Rattle.std.specs.Prelude.{◌≡◌, Bool, Some, is_some};
ghost use Rattle.info_query.specs.Listings.{lines_of};
ghost use Rattle.info_query.specs.Inner.Names.{is_in_set, is_in_table, knows_name};

use info_lines::{Listing, number_named};
use info_symbols::{TypeSet, set_number_named};
use pol_fields::TableKind;
use pol_read::Policy;

/// Whether a listing of a policy knows a name: exactly where `lines_of` has lines for it. It takes no memory.
#[tactic(auto, using(crate::proofs::KnownNames::known_has_lines))]
pub fn name_is_known(policy: &Policy<'_>, listing: Listing, name: &[u8]) -> bool
    ensures { (expand : Bool) → result ≡ is_some (lines_of policy.now expand listing (Some name.now)) }
{
    knows_name(policy, listing, name)
}

// Whether a listing finds a name in its table, or looks no names up.
#[tactic(auto, unfolding(crate::specs::Inner::Names::knows_name))]
fn knows_name(policy: &Policy<'_>, listing: Listing, name: &[u8]) -> bool
    ensures { result ≡ knows_name policy.now listing name.now }
{
    match listing {
        Listing::Classes | Listing::Constraints | Listing::Validatetrans | Listing::Defaults => {
            is_in_table(policy, TableKind::Classes, name)
        }
        Listing::Commons => is_in_table(policy, TableKind::Commons, name),
        Listing::Roles => is_in_table(policy, TableKind::Roles, name),
        Listing::Users => is_in_table(policy, TableKind::Users, name),
        Listing::Booleans => is_in_table(policy, TableKind::Booleans, name),
        Listing::Sensitivities => is_in_table(policy, TableKind::Levels, name),
        Listing::Categories => is_in_table(policy, TableKind::Categories, name),
        Listing::Types | Listing::Permissives => is_in_set(policy, TypeSet::PlainTypes, name),
        Listing::Attributes => is_in_set(policy, TypeSet::Attributes, name),
        Listing::InitialSids
        | Listing::FsUses
        | Listing::Genfscons
        | Listing::Netifcons
        | Listing::Nodecons
        | Listing::Portcons
        | Listing::Ibpkeycons
        | Listing::Ibendportcons
        | Listing::Capabilities
        | Listing::Typebounds => true,
    }
}

// Whether a name finds a primary record of a table.
fn is_in_table(policy: &Policy<'_>, table: TableKind, name: &[u8]) -> bool
    ensures { result ≡ is_in_table policy.now table name.now }
{
    number_named(policy.symbols(), table, name).is_some()
}

// Whether a name finds a record of a set of types.
fn is_in_set(policy: &Policy<'_>, set: TypeSet, name: &[u8]) -> bool
    ensures { result ≡ is_in_set policy.now set name.now }
{
    set_number_named(policy, set, name).is_some()
}
