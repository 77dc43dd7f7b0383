// What seconvert is asked.
ghost use Rattle.std.specs.Prelude.{◌≤◌};

use se_words::Named;

/// What `seconvert` is asked: a policy at another version.
#[derive(Clone, Copy, Debug)]
pub struct ConvertRequest<'w> {
    /// The policy's name.
    pub policy: Named<'w>,
    pub version: u32,
    pub ghost least: { 28 ≤ version },
    pub ghost most: { version ≤ 34 },
}
