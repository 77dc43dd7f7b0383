// What a conversion keeps, each law claimed by a function that does nothing.
ghost use Rattle.std.specs.Prelude.{◌≡◌, ℕ, List, Ok};
ghost use Rattle.pol_file.specs.declared.Parts.{Parts};
ghost use Rattle.pol_file.specs.Acceptance.{accept};
ghost use Rattle.pol_tree.specs.declared.Tree.{Tree};
ghost use Rattle.pol_tree.specs.PolicyTree.{tree_of};
ghost use Rattle.pol_versions.specs.Conversion.{converted};
ghost use Rattle.pol_versions.specs.KeptRecords.{bare_rules, HasSame, KeepsRecords};

/// The tree at a version has that version. All its lists are those of the tree, but for the type sets of constraints and the two lists of
/// file-name transitions.
pub fn conversions_keep_records()
    ensures version { (tree : Tree) (version : ℕ) → (converted tree version).version ≡ version }
    ensures records { (tree : Tree) (version : ℕ) → KeepsRecords tree (converted tree version) }
{}

/// The rules that a policy stores, without their numbers, are those that are stored at the other version.
pub fn conversions_keep_rules()
    ensures { (bytes : List ℕ) (old new : Parts) (version : ℕ) → accept bytes ≡ Ok old → tree_of new ≡ converted (tree_of old) version → HasSame (bare_rules old) (bare_rules new) }
{}
