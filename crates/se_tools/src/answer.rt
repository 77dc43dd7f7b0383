// The call that all tools go through.
ghost use Rattle.std.specs.Prelude.{◌≡◌, ◌≤◌, false, length, Ok};
ghost use Rattle.se_outside.specs.Outside.{NoneAsked};
ghost use Rattle.se_outside.specs.declared.Slot.TheVariants.{Policy as policy_slot, Map as map_slot, List as list_slot};
ghost use Rattle.pol_file.specs.Acceptance.{accept};
ghost use Rattle.se_flow.specs.FlowAnswer.{flow_answer};
ghost use Rattle.se_help.specs.Topics.{topic_in};
ghost use Rattle.se_items.specs.Writing.{Said};
ghost use Rattle.se_status.specs.Message.{message_of};
ghost use Rattle.se_verdicts.specs.CheckAnswer.{check_answer};
ghost use Rattle.se_options.specs.FlowRequest.{flow_view};
ghost use Rattle.se_options.specs.Request.{About as about, question_view, request_of, request_view};
ghost use Rattle.se_tools.specs.Answer.{file_limit};
ghost use Rattle.se_tools.specs.Answers.{Answers, FileSettles, NoOtherAsked, Settles, outside, unread_status};
ghost use Rattle.se_tools.specs.Runs.{Runs};

use crate::reading::{ReadEnd, read_whole};
use pol_cursor::ReadError;
use pol_fields::limits::MAX_POLICY_BYTES;
use pol_read::{Policy, read};
use se_convert::answer_convert;
use se_dom::answer_dom;
use se_flow::answer_flow;
use se_help::{topic_of, write_topic};
use se_info::answer_info;
use se_make::answer_make;
use se_options::{CheckRequest, FlowRequest, Question, Request, Words, WordsError, request_of};
use se_outside::{Files, Patterns, Sink, Slot};
use se_search::answer_search;
use se_status::{Status, report};
use se_verdicts::answer_check;
use std::alloc::Global;
use text_rows::MAX_TEXT_BYTES;

/// Answers the words: tells what they ask of the program itself, or else reads the files that they name, builds the patterns that they
/// are, and writes the answer to `out`. The message of the status is written to `err`.
///
/// Nothing is written to `out` before all is read and looked up. A fault of `err` changes no status.
pub fn run<F: Files, P: Patterns, S: Sink, E: Sink>(
    alloc: Global,
    words: &Words,
    files: &mut F,
    patterns: &mut P,
    out: &mut S,
    err: &mut E,
) -> Status
    requires { NoneAsked (F.state files.old) }
    ensures answers { Runs (topic_in words.now) (request_of words.now)
        (F.world files.old) (outside (F.state files.old) (P.state patterns.old) (S.state out.old))
        (outside (F.state files.new) (P.state patterns.new) (S.state out.new)) result }
    ensures said { Said (E.state err.old) (E.state err.new) (message_of result) }
{
    let status = match topic_of(words) {
        Some(topic) => write_topic(topic, out),
        None => answer(alloc, words, files, patterns, out),
    };
    let _ = report(&status, err);
    status
}

// Answers the words about a policy, but for the message.
fn answer<F: Files, P: Patterns, S: Sink>(
    alloc: Global,
    words: &Words,
    files: &mut F,
    patterns: &mut P,
    out: &mut S,
) -> Status
    requires { NoneAsked (F.state files.old) }
    ensures { Answers (request_of words.now) (F.world files.old) (outside (F.state files.old) (P.state patterns.old) (S.state out.old))
        (outside (F.state files.new) (P.state patterns.new) (S.state out.new)) result }
{
    match request_of(alloc, words) {
        Ok(request) => answer_request(alloc, &request, files, patterns, out),
        Err(WordsError::Usage(word)) => Status::Usage(word),
        Err(WordsError::Memory) => Status::Memory,
    }
}

// Answers a request.
fn answer_request<F: Files, P: Patterns, S: Sink>(
    alloc: Global,
    request: &Request<'_>,
    files: &mut F,
    patterns: &mut P,
    out: &mut S,
) -> Status
    requires { NoneAsked (F.state files.old) }
    ensures { Answers (Ok (request_view request.now)) (F.world files.old)
        (outside (F.state files.old) (P.state patterns.old) (S.state out.old))
        (outside (F.state files.new) (P.state patterns.new) (S.state out.new)) result }
{
    match request {
        Request::Info(asks) => answer_about(alloc, Question::Info(asks), files, patterns, out),
        Request::Search(asks) => answer_about(alloc, Question::Search(asks), files, patterns, out),
        Request::Dom(asks) => answer_about(alloc, Question::Dom(asks), files, patterns, out),
        Request::Flow(asks) => answer_about(alloc, Question::Flow(asks), files, patterns, out),
        Request::Convert(asks) => {
            answer_about(alloc, Question::Convert(asks), files, patterns, out)
        }
        Request::Check(asks) => answer_about(alloc, Question::Check(asks), files, patterns, out),
        Request::Make(asks) => answer_make(alloc, asks, out),
    }
}

// Answers a question about the policy of its name.
fn answer_about<F: Files, P: Patterns, S: Sink>(
    alloc: Global,
    question: Question<'_, '_>,
    files: &mut F,
    patterns: &mut P,
    out: &mut S,
) -> Status
    requires { NoneAsked (F.state files.old) }
    ensures { Answers (Ok (about (question_view question.entry))) (F.world files.old)
        (outside (F.state files.old) (P.state patterns.old) (S.state out.old))
        (outside (F.state files.new) (P.state patterns.new) (S.state out.new)) result }
{
    let name = question.policy();
    match read_whole(alloc, files, Slot::Policy, name, MAX_POLICY_BYTES) {
        Ok(bytes) => conclude(alloc, &bytes, question, files, patterns, out),
        Err(end) => unread_status(Slot::Policy, end),
    }
}

// Answers a question about the policy with these bytes.
fn conclude<F: Files, P: Patterns, S: Sink>(
    alloc: Global,
    bytes: &[u8],
    question: Question<'_, '_>,
    files: &mut F,
    patterns: &mut P,
    out: &mut S,
) -> Status
    requires few { length bytes.now ≤ file_limit policy_slot }
    requires others { NoOtherAsked (F.state files.old) }
    ensures { Settles (question_view question.entry) (accept bytes.now) (F.world files.old)
        (outside (F.state files.old) (P.state patterns.old) (S.state out.old))
        (outside (F.state files.new) (P.state patterns.new) (S.state out.new)) result }
{
    match read(alloc, bytes) {
        Ok(policy) => {
            let status = answer_policy(alloc, &policy, question, files, patterns, out);
            drop(policy);
            status
        }
        Err(ReadError::Fault(fault)) => Status::BadPolicy(fault),
        Err(ReadError::Memory) => Status::Memory,
    }
}

// Answers a question about a policy that was accepted.
fn answer_policy<F: Files, P: Patterns, S: Sink>(
    alloc: Global,
    policy: &Policy<'_>,
    question: Question<'_, '_>,
    files: &mut F,
    patterns: &mut P,
    out: &mut S,
) -> Status
    requires { NoOtherAsked (F.state files.old) }
    ensures { Settles (question_view question.entry) (Ok policy.now) (F.world files.old)
        (outside (F.state files.old) (P.state patterns.old) (S.state out.old))
        (outside (F.state files.new) (P.state patterns.new) (S.state out.new)) result }
{
    match question {
        Question::Info(asks) => answer_info(alloc, policy, asks, out),
        Question::Search(asks) => answer_search(alloc, policy, asks, patterns, out),
        Question::Dom(asks) => answer_dom(alloc, policy, asks, out),
        Question::Flow(asks) => answer_mapped(alloc, policy, asks, files, out),
        Question::Convert(asks) => answer_convert(alloc, policy, asks.version, out),
        Question::Check(asks) => answer_listed(alloc, policy, asks, files, out),
    }
}

// Reads the permission map of a request about flows, and answers it.
fn answer_mapped<F: Files, S: Sink>(
    alloc: Global,
    policy: &Policy<'_>,
    asks: &FlowRequest<'_>,
    files: &mut F,
    out: &mut S,
) -> Status
    requires { (F.state files.old map_slot).asked ≡ false }
    ensures { FileSettles map_slot asks.now.map.text.now (flow_answer (flow_view asks.now) policy.now)
        (F.world files.old) (F.state files.old) (F.state files.new) (S.state out.old) (S.state out.new) result }
{
    match read_whole(alloc, files, Slot::Map, asks.map.text, MAX_TEXT_BYTES) {
        Ok(bytes) => answer_flow(alloc, policy, &bytes, asks, out),
        Err(end) => unread_status(Slot::Map, end),
    }
}

// Reads the checklist of a request about checks, and answers it.
fn answer_listed<F: Files, S: Sink>(
    alloc: Global,
    policy: &Policy<'_>,
    asks: &CheckRequest<'_>,
    files: &mut F,
    out: &mut S,
) -> Status
    requires { (F.state files.old list_slot).asked ≡ false }
    ensures { FileSettles list_slot asks.now.list.text.now (check_answer policy.now)
        (F.world files.old) (F.state files.old) (F.state files.new) (S.state out.old) (S.state out.new) result }
{
    match read_whole(alloc, files, Slot::List, asks.list.text, MAX_TEXT_BYTES) {
        Ok(bytes) => answer_check(alloc, policy, &bytes, out),
        Err(end) => unread_status(Slot::List, end),
    }
}

// How a run ends that did not read the file of a slot whole.
fn unread_status(slot: Slot, end: ReadEnd) -> Status
    ensures { result ≡ unread_status slot end }
{
    match end {
        ReadEnd::Fault => Status::ReadFault(slot),
        ReadEnd::TooLarge => Status::TooLarge(slot),
        ReadEnd::Memory => Status::Memory,
    }
}
