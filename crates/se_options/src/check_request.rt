// What sechecker is asked.
use se_words::Named;

/// What `sechecker` is asked: the checks of a list, of a policy.
#[derive(Clone, Copy, Debug)]
pub struct CheckRequest<'w> {
    /// The policy's name.
    pub policy: Named<'w>,
    /// The list's name.
    pub list: Named<'w>,
}
