// What is true of the order in which criteria are looked up.
ghost use Rattle.std.specs.Prelude.{◌≡◌, List};
ghost use Rattle.std.specs.List.Sorted.{IsPermutation};
ghost use Rattle.rule_query.specs.GivenCriteria.{AreRising, Given, HaveOwnWords, all_given, in_word_order};

use rule_criteria::Criteria;

/// The criteria that are given are looked up in the order of their words: each once, the words rising. Where each has a word of its own,
/// as in a command line, there is one such order.
pub fn criteria_have_one_order(criteria: &Criteria)
    ensures given { IsPermutation (all_given criteria.now) (in_word_order criteria.now) }
    ensures rising { AreRising (in_word_order criteria.now) }
    ensures one { (order : List Given) → HaveOwnWords (all_given criteria.now) → IsPermutation (all_given criteria.now) order → AreRising order → order ≡ in_word_order criteria.now }
{}
