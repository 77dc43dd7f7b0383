// What seinfo is asked.
ghost use Rattle.std.specs.Prelude.{◌≡◌, option_map};
ghost use Rattle.se_options.specs.InfoRequest.{wanted_view};

use info_lines::Listing;
use se_words::Named;

/// A listing that is wanted.
#[derive(Clone, Copy, Debug)]
pub struct Wanted<'w> {
    pub listing: Listing,
    /// The lines of that name alone.
    pub name: Option<Named<'w>>,
}

impl<'w> Wanted<'w> {
    /// The bytes of the name.
    pub fn text(&self) -> Option<&'w [u8]>
        ensures { option_map (λ name. name.now) result ≡ option_map (λ name. name.text) (wanted_view self.now).name }
    {
        match self.name {
            Some(name) => Some(name.text.as_bytes()),
            None => None,
        }
    }
}

/// What `seinfo` is asked of a policy.
#[derive(Debug, Drop)]
pub struct InfoRequest<'w> {
    /// The policy's name.
    pub policy: Named<'w>,
    /// The listings in their order. With none, the summary is wanted.
    pub listings: Vec<Wanted<'w>>,
    /// With expanded lines.
    pub expand: bool,
    /// The lines alone, without titles and indents.
    pub flat: bool,
}
