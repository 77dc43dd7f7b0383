// What the words after `seinfo` ask for.
ghost use Rattle.std.specs.Prelude.{◌≡◌, ◌++◌, IfOk, OnOk, codes, flat_map, map, option_map};
ghost use Rattle.se_words.specs.Given.{is_given};
ghost use Rattle.se_words.specs.Options.{group_view, named_view, row_view};
ghost use Rattle.se_words.specs.Word.{text_of};
ghost use Rattle.se_options.specs.Asked.{Says, asked_by};
ghost use Rattle.se_options.specs.InfoRequest.{info_in, info_options, info_view, option_of, wanted_by, wanted_in, wanted_of, wanted_view};

use crate::asked::{fitting_groups, missing};
use crate::{InfoRequest, Wanted, WordsError};
use info_lines::Listing;
use se_words::{
    Group, Named, OptionRow, Word, first_positional, is_given, last_value, naming, switch,
};
use std::alloc::{AllocError, Global};

// The listings in their order.
const LISTINGS: [Listing; 23] = [
    Listing::Classes,
    Listing::Commons,
    Listing::Constraints,
    Listing::Validatetrans,
    Listing::Defaults,
    Listing::Roles,
    Listing::Types,
    Listing::Attributes,
    Listing::Users,
    Listing::Booleans,
    Listing::Sensitivities,
    Listing::Categories,
    Listing::InitialSids,
    Listing::FsUses,
    Listing::Genfscons,
    Listing::Netifcons,
    Listing::Nodecons,
    Listing::Portcons,
    Listing::Ibpkeycons,
    Listing::Ibendportcons,
    Listing::Permissives,
    Listing::Capabilities,
    Listing::Typebounds,
];

// What the words after `seinfo` ask for. One of them is positional, the policy.
pub fn info_request<'w>(alloc: Global, words: &'w [Word]) -> Result<InfoRequest<'w>, WordsError>
    ensures { Says info_view result (asked_by info_options 1 info_in (map text_of words.now)) }
{
    let groups = fitting_groups(alloc, &info_options(), 1, words)?;
    let Some(policy) = first_positional(&groups) else {
        return Err(missing(words));
    };
    let listings = wanted_listings(alloc, &groups)?;
    Ok(InfoRequest {
        policy,
        listings,
        expand: is_given(&groups, "--expand"),
        flat: is_given(&groups, "--flat"),
    })
}

// The options of seinfo.
#[tactic(auto, unfolding(crate::specs::InfoRequest::info_options))]
fn info_options() -> [OptionRow; 26]
    ensures { map row_view result ≡ info_options }
{
    [
        option_of(Listing::Classes),
        option_of(Listing::Commons),
        option_of(Listing::Constraints),
        option_of(Listing::Validatetrans),
        option_of(Listing::Defaults),
        option_of(Listing::Roles),
        option_of(Listing::Types),
        option_of(Listing::Attributes),
        option_of(Listing::Users),
        option_of(Listing::Booleans),
        option_of(Listing::Sensitivities),
        option_of(Listing::Categories),
        option_of(Listing::InitialSids),
        option_of(Listing::FsUses),
        option_of(Listing::Genfscons),
        option_of(Listing::Netifcons),
        option_of(Listing::Nodecons),
        option_of(Listing::Portcons),
        option_of(Listing::Ibpkeycons),
        option_of(Listing::Ibendportcons),
        option_of(Listing::Permissives),
        option_of(Listing::Capabilities),
        option_of(Listing::Typebounds),
        switch(None, "--all"),
        switch(Some("-x"), "--expand"),
        switch(None, "--flat"),
    ]
}

// The option that asks for a listing.
fn option_of(listing: Listing) -> OptionRow
    ensures { row_view result ≡ option_of listing }
{
    match listing {
        Listing::Classes => naming(Some("-c"), "--class"),
        Listing::Commons => naming(None, "--common"),
        Listing::Constraints => naming(None, "--constrain"),
        Listing::Validatetrans => naming(None, "--validatetrans"),
        Listing::Defaults => naming(None, "--default"),
        Listing::Roles => naming(Some("-r"), "--role"),
        Listing::Types => naming(Some("-t"), "--type"),
        Listing::Attributes => naming(Some("-a"), "--attribute"),
        Listing::Users => naming(Some("-u"), "--user"),
        Listing::Booleans => naming(Some("-b"), "--bool"),
        Listing::Sensitivities => naming(None, "--sensitivity"),
        Listing::Categories => naming(None, "--category"),
        Listing::InitialSids => naming(None, "--initialsid"),
        Listing::FsUses => naming(None, "--fs_use"),
        Listing::Genfscons => naming(None, "--genfscon"),
        Listing::Netifcons => naming(None, "--netifcon"),
        Listing::Nodecons => switch(None, "--nodecon"),
        Listing::Portcons => switch(None, "--portcon"),
        Listing::Ibpkeycons => switch(None, "--ibpkeycon"),
        Listing::Ibendportcons => switch(None, "--ibendportcon"),
        Listing::Permissives => naming(None, "--permissive"),
        Listing::Capabilities => naming(None, "--polcap"),
        Listing::Typebounds => switch(None, "--typebounds"),
    }
}

// The listings that groups of words ask for.
#[tactic(auto, unfolding(crate::specs::InfoRequest::wanted_of))]
fn wanted_listings<'w>(alloc: Global, groups: &[Group<'w>]) -> Result<Vec<Wanted<'w>>, AllocError>
    ensures { IfOk result (λ listings. map wanted_view listings.items
        ≡ wanted_of (is_given (codes "--all") (map group_view groups.now)) (map group_view groups.now)) }
{
    wanted_among(alloc, groups, is_given(groups, "--all"), &LISTINGS)
}

// The listings among some that groups of words ask for, or all of them.
fn wanted_among<'w>(
    alloc: Global,
    groups: &[Group<'w>],
    all: bool,
    among: &[Listing],
) -> Result<Vec<Wanted<'w>>, AllocError>
    ensures { IfOk result (λ listings. map wanted_view listings.items ≡ flat_map (wanted_in all (map group_view groups.now)) among.now) }
{
    let mut listings = Vec::new(alloc);
    for listing in among {
        let name = last_value(groups, option_of(*listing).name);
        push_wanted(all, *listing, name, &mut listings)?;
    }
    Ok(listings)
}

// Adds a listing, if its option was given, or all are wanted.
fn push_wanted<'w>(
    all: bool,
    listing: Listing,
    name: Option<Option<Named<'w>>>,
    listings: &mut Vec<Wanted<'w>>,
) -> Result<(), AllocError>
    ensures { OnOk result (map wanted_view listings.new.items ≡ map wanted_view listings.old.items
        ++ wanted_by all listing (option_map (option_map named_view) name.entry)) }
{
    match name {
        Some(name) => Ok(listings.push(Wanted { listing, name })?),
        None if all => Ok(listings.push(Wanted {
            listing,
            name: None,
        })?),
        None => Ok(()),
    }
}
