// The message of a status. It takes no memory.
ghost use Rattle.std.specs.Prelude.{◌≡◌, ◌++◌, ◌∷◌, [], codes, decimal, flat_map};
ghost use Rattle.se_items.specs.Writing.{Puts, Wrote};
ghost use Rattle.se_status.specs.Message.{message_of, part_text, pattern_words, said, slot_word};

use crate::Status;
use arrayvec::ArrayString;
use check_list::ListFault;
use itoa::Buffer;
use perm_map::MapFault;
use pol_fields::{Cause, Fault};
use pol_unheld::Unheld;
use se_items::write_all;
use se_outside::{Failed, PatternKind, Sink, Slot};

// A line on the stack. It has room for the longest message, so each is one write.
type Line = ArrayString<256>;

/// A part of a message.
#[derive(Clone, Copy, Debug)]
pub enum Part<'a> {
    Text(&'a str),
    Number(u64),
}

/// Writes the message of a status.
pub fn report<E: Sink>(status: &Status, err: &mut E) -> Result<(), Failed>
    ensures { Wrote (E.state err.old) (E.state err.new) (message_of status.now) result }
{
    match *status {
        Status::Done => Ok(()),
        Status::Usage(word) => say_word(word, " does not fit", err),
        Status::ReadFault(slot) => say_slot(slot, ": read failed", err),
        Status::TooLarge(slot) => say_slot(slot, ": too large", err),
        Status::BadPolicy(fault) => say_fault(&fault, err),
        Status::BadMap(fault) => say_map_fault(&fault, err),
        Status::BadList(fault) => say_list_fault(&fault, err),
        Status::CannotHold(version, unheld) => say_unheld(version, unheld, err),
        Status::UnknownName(word) => say_word(word, ": unknown name", err),
        Status::BadNumber(word) => say_word(word, ": not a number", err),
        Status::BadPattern(word, kind) => say_word(word, pattern_words(kind), err),
        Status::WriteFault => say_text("write failed", err),
        Status::Memory => say_text("out of memory", err),
    }
}

// Writes a message that is one text.
fn say_text<E: Sink>(text: &str, err: &mut E) -> Result<(), Failed>
    ensures { Wrote (E.state err.old) (E.state err.new) (said (text.now ∷ [])) result }
{
    say(&[Part::Text(text)], err)
}

// Writes a message on a word.
fn say_word<E: Sink>(word: u64, after: &str, err: &mut E) -> Result<(), Failed>
    ensures { Wrote (E.state err.old) (E.state err.new) (said (codes "word " ∷ decimal word ∷ after.now ∷ [])) result }
{
    say(
        &[Part::Text("word "), Part::Number(word), Part::Text(after)],
        err,
    )
}

// Writes a message on the file of a slot.
fn say_slot<E: Sink>(slot: Slot, after: &str, err: &mut E) -> Result<(), Failed>
    ensures { Wrote (E.state err.old) (E.state err.new) (said (slot_word slot ∷ after.now ∷ [])) result }
{
    say(&[Part::Text(slot_word(slot)), Part::Text(after)], err)
}

// Writes the message of a permission map's fault.
fn say_map_fault<E: Sink>(fault: &MapFault, err: &mut E) -> Result<(), Failed>
    ensures { Wrote (E.state err.old) (E.state err.new) (message_of (Status.BadMap fault.now)) result }
{
    say_line("map: line ", fault.line, fault.cause.word(), err)
}

// Writes the message of a checklist's fault.
fn say_list_fault<E: Sink>(fault: &ListFault, err: &mut E) -> Result<(), Failed>
    ensures { Wrote (E.state err.old) (E.state err.new) (message_of (Status.BadList fault.now)) result }
{
    say_line("checklist: line ", fault.line, fault.cause.word(), err)
}

// Writes a message on a line of a text.
fn say_line<'t, E: Sink>(
    before: &'t str,
    line: u32,
    cause: &'t str,
    err: &mut E,
) -> Result<(), Failed>
    ensures { Wrote (E.state err.old) (E.state err.new) (said (before.now ∷ decimal line ∷ codes ": " ∷ cause.now ∷ [])) result }
{
    say(
        &[
            Part::Text(before),
            Part::Number(line as u64),
            Part::Text(": "),
            Part::Text(cause),
        ],
        err,
    )
}

// Writes what a version cannot hold.
fn say_unheld<E: Sink>(version: u32, unheld: Unheld, err: &mut E) -> Result<(), Failed>
    ensures { Wrote (E.state err.old) (E.state err.new) (message_of (Status.CannotHold version unheld)) result }
{
    say(
        &[
            Part::Text("version "),
            Part::Number(version as u64),
            Part::Text(" cannot hold: "),
            Part::Text(unheld.word()),
        ],
        err,
    )
}

// Writes the message of a policy's fault.
fn say_fault<E: Sink>(fault: &Fault, err: &mut E) -> Result<(), Failed>
    ensures { Wrote (E.state err.old) (E.state err.new) (message_of (Status.BadPolicy fault.now)) result }
{
    let place = Part::Number(fault.place as u64);
    let field = Part::Text(fault.field.word());
    let cause = Part::Text(fault.cause.word());
    match fault.cause {
        Cause::Dangling { table, value } => say(
            &[
                Part::Text("policy: place "),
                place,
                Part::Text(", field "),
                field,
                Part::Text(": "),
                cause,
                Part::Text(" "),
                Part::Text(table.word()),
                Part::Text(" "),
                Part::Number(value as u64),
            ],
            err,
        ),
        _ => say(
            &[
                Part::Text("policy: place "),
                place,
                Part::Text(", field "),
                field,
                Part::Text(": "),
                cause,
            ],
            err,
        ),
    }
}

// What a slot is called.
fn slot_word(slot: Slot) -> &'static str
    ensures { result.now ≡ slot_word slot }
{
    match slot {
        Slot::Policy => "policy",
        Slot::Map => "map",
        Slot::List => "checklist",
    }
}

// What is wrong with a pattern.
fn pattern_words(kind: PatternKind) -> &'static str
    ensures { result.now ≡ pattern_words kind }
{
    match kind {
        PatternKind::Syntax => ": not a pattern",
        PatternKind::Refused => ": pattern refused",
    }
}

// Writes the line of a message.
fn say<E: Sink>(parts: &[Part], err: &mut E) -> Result<(), Failed>
    ensures { Wrote (E.state err.old) (E.state err.new) (codes "setools: " ++ (flat_map part_text parts.now ++ codes "\n")) result }
{
    let mut line = Line::new();
    put("setools: ", &mut line, err)?;
    put_parts(parts, &mut line, err)?;
    put("\n", &mut line, err)?;
    write_all(err, line.as_str().as_bytes())
}

// Puts the parts into a line.
fn put_parts<E: Sink>(parts: &[Part], line: &mut Line, err: &mut E) -> Result<(), Failed>
    ensures { Puts (E.state err.old) (E.state err.new) line.old.bytes line.new.bytes (flat_map part_text parts.now) result }
{
    for part in parts {
        put_part(part, line, err)?;
    }
    Ok(())
}

fn put_part<E: Sink>(part: &Part, line: &mut Line, err: &mut E) -> Result<(), Failed>
    ensures { Puts (E.state err.old) (E.state err.new) line.old.bytes line.new.bytes (part_text part.now) result }
{
    match part {
        Part::Text(text) => put(text, line, err),
        Part::Number(number) => put(Buffer::new().format(*number), line, err),
    }
}

// Puts a text into a line, which is written first where the text does not fit beside what it has.
fn put<E: Sink>(text: &str, line: &mut Line, err: &mut E) -> Result<(), Failed>
    ensures { Puts (E.state err.old) (E.state err.new) line.old.bytes line.new.bytes text.now result }
{
    let Err(_full) = line.try_push_str(text) else {
        return Ok(());
    };
    write_all(err, line.as_str().as_bytes())?;
    line.clear();
    write_all(err, text.as_bytes())
}
