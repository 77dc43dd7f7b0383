// The kinds of listings.
ghost use Rattle.std.specs.Prelude.{◌≡◌};
ghost use Rattle.info_lines.specs.Titles.{title_of};

/// What of a policy is listed, in the order in which listings come.
#[derive(Clone, Copy, Debug, PartialEq, Eq)]
pub enum Listing {
    Classes,
    Commons,
    Constraints,
    Validatetrans,
    Defaults,
    Roles,
    Types,
    Attributes,
    Users,
    Booleans,
    Sensitivities,
    Categories,
    InitialSids,
    FsUses,
    Genfscons,
    Netifcons,
    Nodecons,
    Portcons,
    Ibpkeycons,
    Ibendportcons,
    Permissives,
    Capabilities,
    Typebounds,
}

impl Listing {
    /// What stands over it.
    pub fn title(self) -> &'static [u8]
        ensures { result.now ≡ title_of self }
    {
        match self {
            Listing::Classes => b"Classes",
            Listing::Commons => b"Commons",
            Listing::Constraints => b"Constraints",
            Listing::Validatetrans => b"Validatetrans",
            Listing::Defaults => b"Default Rules",
            Listing::Roles => b"Roles",
            Listing::Types => b"Types",
            Listing::Attributes => b"Type Attributes",
            Listing::Users => b"Users",
            Listing::Booleans => b"Booleans",
            Listing::Sensitivities => b"Sensitivities",
            Listing::Categories => b"Categories",
            Listing::InitialSids => b"Initial SIDs",
            Listing::FsUses => b"Fs_use",
            Listing::Genfscons => b"Genfscon",
            Listing::Netifcons => b"Netifcon",
            Listing::Nodecons => b"Nodecon",
            Listing::Portcons => b"Portcon",
            Listing::Ibpkeycons => b"Ibpkeycon",
            Listing::Ibendportcons => b"Ibendportcon",
            Listing::Permissives => b"Permissive Types",
            Listing::Capabilities => b"Policy Capabilities",
            Listing::Typebounds => b"Typebounds",
        }
    }
}
