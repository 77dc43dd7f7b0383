// Which ends some rules have.
ghost use Rattle.std.specs.Prelude.{◌≡◌, ℕ, Bool, true};
ghost use Rattle.pol_expand.specs.Inner.StoredEnds.{has_places};

use value_groups::Groups;

/// Tells of values whether rules have them as their end.
pub trait EndsInUse {
    ghost has: { Self → ℕ → Bool };

    /// Whether rules have a value as their end.
    fn has(&self, end: u32) -> bool
        ensures { result ≡ has self.now end };
}

impl EndsInUse for Groups {
    ghost has = { has_places };

    fn has(&self, end: u32) -> bool {
        !self.places(end).is_empty()
    }
}

/// Any value may be an end.
pub struct AnyEnd;

impl EndsInUse for AnyEnd {
    ghost has = { λ _ _. true };

    fn has(&self, _end: u32) -> bool {
        true
    }
}
