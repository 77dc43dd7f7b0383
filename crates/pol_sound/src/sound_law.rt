// The law of policies at another version, claimed by a function that does nothing.
ghost use Rattle.std.specs.Prelude.{◌≡◌, ◌≤◌, ℕ, List, Ok, None, length};
ghost use Rattle.pol_fields.specs.declared.limits.TheConstants.{MAX_POLICY_BYTES};
ghost use Rattle.pol_cursor.specs.Spelling.{AreBytes};
ghost use Rattle.pol_file.specs.Acceptance.{accept};
ghost use Rattle.pol_file.specs.declared.Parts.{Parts};
ghost use Rattle.pol_tree.specs.declared.Tree.{Tree};
ghost use Rattle.pol_tree.specs.PolicyTree.{tree_of};
ghost use Rattle.pol_tree.specs.TreeSpelling.{spell};
ghost use Rattle.pol_versions.specs.Conversion.{cannot, converted};
ghost use Rattle.pol_write.specs.Soundness.{IsSound};
ghost use Rattle.pol_sound.specs.Versions.{IsVersion};

/// A policy that a version can hold is sound at this version. So the bytes that are written of a converted file are accepted, as a policy
/// of the converted tree.
pub fn converted_policies_are_sound()
    ensures sound { (tree : Tree) (version : ℕ) → IsSound tree → IsVersion version → cannot tree version ≡ None → IsSound (converted tree version) }
    ensures accepted { (bytes : List ℕ) (old : Parts) (version : ℕ) → AreBytes bytes → length bytes ≤ MAX_POLICY_BYTES → accept bytes ≡ Ok old → IsVersion version → cannot (tree_of old) version ≡ None → (new : Parts) × (accept (spell (converted (tree_of old) version)) ≡ Ok new) × (tree_of new ≡ converted (tree_of old) version) }
{}
