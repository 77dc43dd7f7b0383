// What make is asked.
ghost use Rattle.std.specs.Prelude.{◌≡◌, ◌≤◌, ◌%◌};

/// What `make` is asked: a policy of so many types.
#[derive(Clone, Copy, Debug)]
pub struct MakeRequest {
    pub types: u32,
    /// The bytes of the policy, in place of its summary.
    pub bytes: bool,
    ghost least: { 200 ≤ types },
    ghost most: { types ≤ 5000 },
    ghost twenties: { types % 20 ≡ 0 },
}
