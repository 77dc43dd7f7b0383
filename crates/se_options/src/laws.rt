//! What is true of words behind others.

ghost use Rattle.std.specs.Prelude.{◌≡◌, ◌++◌, ℕ, List, Option, Some, Ok, true, false, codes};
ghost use Rattle.std.specs.List.{All};
ghost use Rattle.se_items.specs.Paging.{most_items};
ghost use Rattle.se_words.specs.Values.{number_within};
ghost use Rattle.se_words.specs.Word.{is_word};
ghost use Rattle.se_options.specs.Request.{Question, About, comes_by_pages, limit_of, paged, request_of};
ghost use Rattle.se_options.specs.Window.{from_words, page_words};

/// `--from` and `-l` behind the other words of a command line ask for just these items of what is asked, whatever those words say of
/// it. Behind `--` all words are positional, so there is none.
#[tactic(auto, using(crate::proofs::LaterPages::from_behind, crate::proofs::LaterPages::page_behind))]
pub fn later_words_ask_for_pages()
    ensures from { (words : List (Option (List ℕ))) (question : Question) (text : List ℕ) (from : ℕ)
        → All (λ word. is_word (codes "--") word ≡ false) words → request_of words ≡ Ok (About question) → comes_by_pages question ≡ true
        → number_within 0 most_items text ≡ Some from
        → request_of (words ++ from_words text) ≡ Ok (About (paged from (limit_of question) question)) }
    ensures page { (words : List (Option (List ℕ))) (question : Question) (text most : List ℕ) (from limit : ℕ)
        → All (λ word. is_word (codes "--") word ≡ false) words → request_of words ≡ Ok (About question) → comes_by_pages question ≡ true
        → number_within 0 most_items text ≡ Some from → number_within 1 most_items most ≡ Some limit
        → request_of (words ++ page_words text most) ≡ Ok (About (paged from (Some limit) question)) }
{}
