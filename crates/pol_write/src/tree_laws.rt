// The laws of whole trees, each claimed by a function that does nothing.
ghost use Rattle.std.specs.Prelude.{◌≡◌, ◌≤◌, ℕ, List, Ok, None, length};
ghost use Rattle.pol_fields.specs.declared.limits.TheConstants.{MAX_POLICY_BYTES};
ghost use Rattle.pol_cursor.specs.Spelling.{AreBytes};
ghost use Rattle.pol_file.specs.Acceptance.{accept};
ghost use Rattle.pol_file.specs.declared.Parts.{Parts};
ghost use Rattle.pol_tree.specs.declared.Tree.{Tree};
ghost use Rattle.pol_tree.specs.PolicyTree.{tree_of};
ghost use Rattle.pol_tree.specs.TreeShape.{shape};
ghost use Rattle.pol_tree.specs.TreeSpelling.{spell};
ghost use Rattle.pol_write.specs.Soundness.{IsSound};

/// The tree of a file that is accepted is sound, has no wrong optional part, and is spelled by the bytes of the file, by all of them. So
/// what was read is written as the same bytes.
pub fn accepted_trees_have_law()
    ensures sound { (bytes : List ℕ) (policy : Parts) → AreBytes bytes → length bytes ≤ MAX_POLICY_BYTES → accept bytes ≡ Ok policy → IsSound (tree_of policy) }
    ensures shape { (bytes : List ℕ) (policy : Parts) → accept bytes ≡ Ok policy → shape (tree_of policy) ≡ None }
    ensures same { (bytes : List ℕ) (policy : Parts) → AreBytes bytes → accept bytes ≡ Ok policy → spell (tree_of policy) ≡ bytes }
{}

/// The bytes of a sound tree are accepted as a policy of that tree. So what is written is read again as itself.
pub fn sound_trees_have_law()
    ensures { (tree : Tree) → IsSound tree → (policy : Parts) × (accept (spell tree) ≡ Ok policy) × (tree_of policy ≡ tree) }
{}
