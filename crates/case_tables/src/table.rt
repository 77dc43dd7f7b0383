// Tables of cases.
//
// A case is some lines with no empty line between them, and an empty line parts two cases. A line is a key, a colon and a space, and
// a value. One that begins with # is a comment.
use crate::case::{Case, Orders};
use crate::cause::{Cause, TableError};
use crate::text::unescaped;
use crate::value::{code_of, most_of, name_of, number_of, size_of, source_of, sweep_of, words_of};
use std::alloc::Global;

/// What a line is about.
#[derive(Clone, Copy, PartialEq, Eq)]
enum Key {
    Words,
    Named,
    Policy,
    Map,
    List,
    FilesFail,
    FilesMost,
    PatternsFail,
    OutFail,
    OutMost,
    OutRoom,
    ErrFail,
    ErrMost,
    ErrRoom,
    Sweep,
    Code,
    Out,
    OutPart,
    OutFile,
    Err,
    ErrPart,
}

const KEYS: [(&str, Key); 21] = [
    ("words", Key::Words),
    ("named", Key::Named),
    ("policy", Key::Policy),
    ("map", Key::Map),
    ("list", Key::List),
    ("files-fail", Key::FilesFail),
    ("files-most", Key::FilesMost),
    ("patterns-fail", Key::PatternsFail),
    ("out-fail", Key::OutFail),
    ("out-most", Key::OutMost),
    ("out-room", Key::OutRoom),
    ("err-fail", Key::ErrFail),
    ("err-most", Key::ErrMost),
    ("err-room", Key::ErrRoom),
    ("sweep", Key::Sweep),
    ("code", Key::Code),
    ("out", Key::Out),
    ("out-part", Key::OutPart),
    ("out-file", Key::OutFile),
    ("err", Key::Err),
    ("err-part", Key::ErrPart),
];

impl Key {
    // The key of that word.
    fn of(word: &str) -> Option<Key> {
        for (text, key) in KEYS {
            if text == word {
                return Some(key);
            }
        }
        None
    }

    // Whether a case may have several lines of it.
    fn repeats(self) -> bool {
        matches!(self, Key::Out | Key::OutPart | Key::Err | Key::ErrPart)
    }
}

/// A case of which some lines were read, and the keys of these lines.
#[derive(Drop)]
struct Begun {
    keys: Vec<Key>,
    case: Case,
}

/// The cases of a table, or the first line that is refused.
pub fn cases_of(alloc: Global, text: &str) -> Result<Vec<Case>, TableError> {
    let mut cases = Vec::new(alloc);
    let mut line = 1usize;
    for block in text.split("\n\n") {
        if let Some(case) = case_of(alloc, block, line)? {
            at(line, push_case(case, &mut cases))?;
        }
        line = line
            .saturating_add(block.split('\n').count())
            .saturating_add(1);
    }
    Ok(cases)
}

// Adds a case.
fn push_case(case: Case, cases: &mut Vec<Case>) -> Result<(), Cause> {
    cases.push(case)?;
    Ok(())
}

// What was read, or why the line of that number is refused.
fn at<T: Drop>(line: usize, read: Result<T, Cause>) -> Result<T, TableError> {
    match read {
        Ok(value) => Ok(value),
        Err(cause) => Err(TableError { line, cause }),
    }
}

// The case of lines of which the first has that number, or none where all are comments.
fn case_of(alloc: Global, block: &str, first: usize) -> Result<Option<Case>, TableError> {
    let mut begun = at(first, begin(alloc))?;
    read_lines(alloc, block, first, &mut begun)?;
    at(first, whole(begun))
}

// A case of which no line was read.
fn begin(alloc: Global) -> Result<Begun, Cause> {
    Ok(Begun {
        keys: Vec::new(alloc),
        case: Case::new(alloc)?,
    })
}

// The case of which all lines were read.
fn whole(begun: Begun) -> Result<Option<Case>, Cause> {
    let Begun { keys, case } = begun;
    if keys.is_empty() {
        Ok(None)
    } else if keys.contains(&Key::Words) && keys.contains(&Key::Code) {
        Ok(Some(case))
    } else {
        Err(Cause::Missing)
    }
}

// Reads the lines of a case, of which the first has that number.
fn read_lines(
    alloc: Global,
    block: &str,
    first: usize,
    begun: &mut Begun,
) -> Result<(), TableError> {
    for (index, text) in block.split('\n').enumerate() {
        let line = first.saturating_add(index);
        at(line, read_line(alloc, text, line, begun))?;
    }
    Ok(())
}

// Reads a line of a case.
fn read_line(alloc: Global, text: &str, line: usize, begun: &mut Begun) -> Result<(), Cause> {
    if text.is_empty() || text.starts_with('#') {
        return Ok(());
    }
    let (key, value) = parted(text)?;
    if begun.keys.contains(&key) && !key.repeats() {
        return Err(Cause::Repeated);
    }
    begun.keys.push(key)?;
    if key == Key::Words {
        begun.case.line = line;
    }
    set(alloc, key, value, &mut begun.case)
}

// The key of a line, and its value.
fn parted(text: &str) -> Result<(Key, &str), Cause> {
    let Some((word, rest)) = text.split_once(':') else {
        return Err(Cause::NoKey);
    };
    match Key::of(word) {
        Some(key) => Ok((key, rest.strip_prefix(' ').unwrap_or(rest))),
        None => Err(Cause::UnknownKey),
    }
}

// Takes the value of a key into the case.
fn set(alloc: Global, key: Key, value: &str, case: &mut Case) -> Result<(), Cause> {
    match key {
        Key::Words => put(words_of(alloc, value), &mut case.words),
        Key::Named => put(name_of(alloc, value), &mut case.name),
        Key::Policy => put_some(source_of(alloc, value), &mut case.policy),
        Key::Map => put_some(source_of(alloc, value), &mut case.map),
        Key::List => put_some(source_of(alloc, value), &mut case.list),
        Key::OutFile => put_some(source_of(alloc, value), &mut case.wanted_file),
        Key::Sweep => put_some(sweep_of(value), &mut case.sweep),
        Key::FilesFail => set_fail(value, &mut case.outside.files),
        Key::FilesMost => set_most(value, &mut case.outside.files),
        Key::PatternsFail => put(number_of(value), &mut case.outside.patterns),
        Key::OutFail => set_fail(value, &mut case.outside.out),
        Key::OutMost => set_most(value, &mut case.outside.out),
        Key::OutRoom => set_room(value, &mut case.outside.out),
        Key::ErrFail => set_fail(value, &mut case.outside.err),
        Key::ErrMost => set_most(value, &mut case.outside.err),
        Key::ErrRoom => set_room(value, &mut case.outside.err),
        Key::Code => put(code_of(value), &mut case.wanted.code),
        Key::Out => push_line(alloc, value, &mut case.wanted.out),
        Key::OutPart => push_part(alloc, value, &mut case.wanted.out),
        Key::Err => push_line(alloc, value, &mut case.wanted.err),
        Key::ErrPart => push_part(alloc, value, &mut case.wanted.err),
    }
}

// Puts what was read into its place.
fn put<T: Drop>(read: Result<T, Cause>, place: &mut T) -> Result<(), Cause> {
    *place = read?;
    Ok(())
}

// Puts what was read into its place, which may have been empty.
fn put_some<T: Drop>(read: Result<T, Cause>, place: &mut Option<T>) -> Result<(), Cause> {
    *place = Some(read?);
    Ok(())
}

// Sets the call that fails.
fn set_fail(value: &str, orders: &mut Orders) -> Result<(), Cause> {
    *orders = orders.failing(number_of(value)?);
    Ok(())
}

// Sets the most bytes that one call moves.
fn set_most(value: &str, orders: &mut Orders) -> Result<(), Cause> {
    *orders = orders.moving(most_of(value)?);
    Ok(())
}

// Sets the most bytes that a sink holds.
fn set_room(value: &str, orders: &mut Orders) -> Result<(), Cause> {
    *orders = orders.holding(size_of(value)?);
    Ok(())
}

// Adds a text, and a line feed.
fn push_line(alloc: Global, value: &str, text: &mut Vec<u8>) -> Result<(), Cause> {
    push_part(alloc, value, text)?;
    text.push(b'\n')?;
    Ok(())
}

// Adds a text.
fn push_part(alloc: Global, value: &str, text: &mut Vec<u8>) -> Result<(), Cause> {
    let bytes = unescaped(alloc, value)?;
    text.extend_from_slice(&bytes)?;
    Ok(())
}
