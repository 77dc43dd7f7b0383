//! What is true of each run that answers.

ghost use Rattle.std.specs.Prelude.{◌≡◌, ◌+◌, ◌++◌, ℕ, List, Option, Some, None, Result, Ok, All, true, false, codes};
ghost use Rattle.std.specs.Io.KnownBytes.{Appends};
ghost use Rattle.se_items.specs.Paging.{most_items};
ghost use Rattle.se_words.specs.Values.{number_within};
ghost use Rattle.se_words.specs.Word.{is_word};
ghost use Rattle.se_outside.specs.Outside.{Rose, World};
ghost use Rattle.se_outside.specs.declared.Slot.{Slot};
ghost use Rattle.se_search.specs.SearchPatterns.{IsRead};
ghost use Rattle.se_status.specs.declared.Status.{Status};
ghost use Rattle.se_status.specs.declared.Status.TheVariants.{Done, Memory};
ghost use Rattle.se_options.specs.Request.{About, Asks, Question, comes_by_pages, limit_of, request_of};
ghost use Rattle.se_options.specs.Window.{from_words, page_words};
ghost use Rattle.se_tools.specs.Answer.{Contents, answer_of, asked_patterns};
ghost use Rattle.se_tools.specs.Answers.{Answers, Outside, Tells};

/// Nothing stands between an answer and who asks for it but memory: where the files tell what they hold, no count of faults or refusals
/// rose, each pattern of the words is one, and the answer is done, the run is done and its sink has the whole text, unless memory ran out.
#[tactic(auto, using(crate::proofs::Complete::complete))]
pub fn answers_are_complete()
    ensures { (request : Result Asks ℕ) (world : World) (contents : Contents) (old new : Outside) (status : Status)
        → Answers request world old new status → Tells world request contents
        → ((slot : Slot) → Rose (old.files slot).faults (new.files slot).faults → ⊥)
        → (Rose old.patterns.refusals new.patterns.refusals → ⊥) → (Rose old.sink.faults new.sink.faults → ⊥)
        → All IsRead (asked_patterns request) → (answer_of request contents).status ≡ Done → (status ≡ Memory → ⊥)
        → (status ≡ Done) × Appends old.sink.written new.sink.written (answer_of request contents).text }
{}

/// Resuming gives exactly the rest. Behind the other words of a command line for a listing, `--from` with `-l` and then `--from` with
/// what is next give together what the first `--from` alone gives.
pub fn command_lines_resume()
    ensures { (words : List (Option (List ℕ))) (question : Question) (contents : Contents) (first most next : List ℕ) (from limit : ℕ)
        → All (λ word. is_word (codes "--") word ≡ false) words → request_of words ≡ Ok (About question)
        → comes_by_pages question ≡ true → limit_of question ≡ None
        → number_within 0 most_items first ≡ Some from → number_within 1 most_items most ≡ Some limit
        → number_within 0 most_items next ≡ Some (from + limit)
        → (answer_of (request_of (words ++ page_words first most)) contents).text ++ (answer_of (request_of (words ++ from_words next)) contents).text
        ≡ (answer_of (request_of (words ++ from_words first)) contents).text }
{}
