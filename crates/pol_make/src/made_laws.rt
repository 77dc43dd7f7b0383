// The law of policies that are made, claimed by a function that does nothing.
ghost use Rattle.std.specs.Prelude.{ℕ};
ghost use Rattle.pol_write.specs.Soundness.{IsSound};
ghost use Rattle.pol_make.specs.Made.{Allowed, made};

/// What is made is a policy: its bytes are accepted, for each number of types that is allowed.
pub fn made_policies_are_sound()
    ensures { (n : ℕ) → Allowed n → IsSound (made n) }
{}
