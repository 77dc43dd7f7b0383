//! What the differences of the entries of two policies promise.

ghost use Rattle.std.specs.Prelude.{◌≡◌, ℕ, [], List, map};
ghost use Rattle.keyed_lists.specs.Differences.{AreAlike, entry_after, entry_with, turned};
ghost use Rattle.diff_entries.specs.Entries.{Entry, entry_differences, key_cmp, same_entry};

/// Entries do not differ from themselves.
#[tactic(auto, using(crate::proofs::EntryLaws::none_from_themselves))]
pub fn entries_do_not_differ_from_themselves()
    ensures { (entries : List Entry) → entry_differences entries entries ≡ [] }
{}

/// The differences from the second entries to the first are those from the first to the second, turned round.
#[tactic(auto, using(crate::proofs::EntryLaws::entries_turned))]
pub fn entry_differences_turn_round()
    ensures { (first second : List Entry) → entry_differences second first ≡ map turned (entry_differences first second) }
{}

/// The first entries, after the differences, are the second: each key has an entry with the same parts, or none.
#[tactic(auto, using(crate::proofs::EntryLaws::entries_completed))]
pub fn entry_differences_are_complete()
    ensures { (first second : List Entry) (key : List (List ℕ)) → AreAlike same_entry (entry_after key_cmp (λ e. e.key) (entry_differences first second) first key) (entry_with key_cmp (λ e. e.key) second key) }
{}
