// What is said of a policy file that is cut short, claimed by a function that does nothing.
ghost use Rattle.std.specs.Prelude.{ℕ, ◌≡◌, ◌<◌, List, Ok, length, take};
ghost use Rattle.pol_file.specs.Acceptance.{accept};
ghost use Rattle.pol_write.specs.CutFiles.{IsCutShort, CutField};
ghost use Rattle.pol_file.specs.declared.Parts.{Parts};

/// A policy file that is cut short is refused with `Short`, at the field within which it was cut.
pub fn cut_files_have_law()
    ensures short { (bytes : List ℕ) (n : ℕ) (policy : Parts) → accept bytes ≡ Ok policy → n < length bytes → IsCutShort n (accept (take n bytes)) }
    ensures field { (bytes : List ℕ) (n : ℕ) (policy : Parts) → accept bytes ≡ Ok policy → n < length bytes → CutField bytes n }
{}
