//! Rules whose lines are to be made.

ghost use Rattle.std.specs.Prelude.{◌≡◌, Some, IfSome, slice_get};
ghost use Rattle.rule_listing.specs.ReadRules.{is_plain};

use pol_avtab::AvView;
use pol_read::Policy;

/// A stored rule that is to be listed: its number, and whether it was seen to be an access vector of the table that gives permissions
/// or a default.
#[derive(Clone, Copy)]
pub struct ListedRule {
    pub(crate) number: u32,
    pub(crate) plain: bool,
}

impl ListedRule {
    /// The access vector that it is, where it was seen to be one.
    #[inline(always)]
    pub(crate) fn vector<'a>(&self, policy: &Policy<'a>) -> Option<AvView<'a>>
        ensures { IfSome result (λ vector. slice_get policy.now.rules.table self.now.number ≡ Some vector) }
    {
        let table = policy.table();
        if self.plain && self.number < table.len() {
            Some(table.view(self.number))
        } else {
            None
        }
    }
}

/// Whether the rule of that number is an access vector of the table that gives permissions or a default, and none of its numbers is 0.
/// All of the vector is looked at, so that it is at hand when its line is made.
#[inline(always)]
pub(crate) fn is_plain(policy: &Policy<'_>, number: u32) -> bool
    ensures { result ≡ is_plain policy.now.rules.table number }
{
    let table = policy.table();
    if number >= table.len() {
        return false;
    }
    let view = table.view(number);
    match view.mask() {
        Some(mask) => mask != 0 && view.source() != 0,
        None => false,
    }
}
