ghost use Rattle.std.specs.Prelude.{◌≡◌, ℕ, ◌==◌, ◌<◌, ◌≤◌, ◌+◌, ◌++◌, true, IfOk, length, take};
ghost use Rattle.std.specs.List.{IsDistinct, filter};
ghost use Rattle.std.specs.Option.{option_to_list};
ghost use Rattle.pol_cursor.specs.Outcome.{Yields};
ghost use Rattle.pol_avtab.specs.AvTables.{placed_rules_at, table_at};
ghost use Rattle.pol_avtab.specs.Inner.DuplicateKeys.{rules_behind, words_of, AreMarked, is_shared, IsRead};

use crate::av_keys::AvKeys;
use crate::av_kind::{Av, AvContext};
use crate::causes::is_extended;
use crate::even_rules::read_even_rules;
use crate::key_order::{ClassHashes, LastKey};
use crate::word_marks::WordMarks;
use pol_cursor::{Cursor, ReadError, Records, read_records_after};
use pol_fields::fields::AVTAB_NEL;
use std::alloc::{AllocError, Global};

// How many rules are looked at together: their marks lie far apart, and the processor fetches those of one loop side by side.
const AT_ONCE: u32 = 128;

/// The table of access vectors. Contracts see the list of them, each with its place.
pub type AvTable<'a> = Records<'a, Av>;

/// Reads the table of access vectors. Nothing is reserved by the number that the policy claims.
///
/// The error is the first fault: `Short`, or one of `read_av` behind the rules before.
#[tactic(auto, unfolding(crate::specs::AvTables::table_at), using(pol_cursor::proofs::Facts::number_is, crate::proofs::KeyWords::collected_read))]
pub fn read_table<'a>(
    alloc: Global,
    c: &mut Cursor<'a>,
    version: u32,
) -> Result<AvTable<'a>, ReadError>
    ensures { Yields (λ table. table) result (table_at version) c.old c.new }
{
    let n = c.u32(AVTAB_NEL)?;
    let mut ahead = Cursor::at(c.bytes(), c.place());
    if let Some(table) = read_even(alloc, &mut ahead, n)? {
        *c = ahead;
        return Ok(table);
    }
    let mut ahead = Cursor::at(c.bytes(), c.place());
    if let Some(table) = read_distinct(alloc, &mut ahead, version, n)? {
        *c = ahead;
        return Ok(table);
    }
    read_rules(alloc, c, version, n, true)
}

// The next n rules, where all take twelve bytes, as in most tables, and no two have the same key.
fn read_even<'a>(
    alloc: Global,
    c: &mut Cursor<'a>,
    n: u32,
) -> Result<Option<AvTable<'a>>, AllocError>
    ensures { (version : ℕ) → IfOk result (λ found. IsRead (placed_rules_at version n) found c.old c.new) }
{
    let Some((table, rising)) = read_even_rules(alloc, c, n) else {
        return Ok(None);
    };
    let distinct = rising || have_distinct_words(alloc, &table)?;
    Ok(distinct.then_some(table))
}

// The next n rules, where none is bad by itself and no two have the same key, but for extended ones. Else the first fault is one
// that only the keys of the rules in their order tell.
#[tactic(auto, using(crate::proofs::KeyWords::distinct_read))]
fn read_distinct<'a>(
    alloc: Global,
    c: &mut Cursor<'a>,
    version: u32,
    n: u32,
) -> Result<Option<AvTable<'a>>, AllocError>
    ensures { IfOk result (λ found. IsRead (placed_rules_at version n) found c.old c.new) }
{
    let table = match read_rules(alloc, c, version, n, false) {
        Ok(table) => table,
        Err(ReadError::Memory) => return Err(AllocError),
        Err(ReadError::Fault(_)) => return Ok(None),
    };
    Ok(are_distinct(alloc, &table)?.then_some(table))
}

// The next n rules, each read behind those before it, or, where keys are not collected, as if it were the first.
#[tactic(auto, unfolding(crate::specs::Inner::DuplicateKeys::rules_behind))]
fn read_rules<'a>(
    alloc: Global,
    c: &mut Cursor<'a>,
    version: u32,
    n: u32,
    collects: bool,
) -> Result<AvTable<'a>, ReadError>
    ensures { Yields (λ table. table) result (rules_behind version collects n) c.old c.new }
{
    let keys = Box::new(alloc, AvKeys::new(alloc))?;
    let context = AvContext {
        version,
        keys,
        collects,
    };
    let (rules, _) = read_records_after(alloc, c, n, context)?;
    Ok(rules)
}

// Whether no two rules have the same key, but for extended ones. Tables that libsepol wrote tell it by their order.
fn are_distinct(alloc: Global, table: &AvTable<'_>) -> Result<bool, AllocError>
    ensures { IfOk result (λ distinct. distinct ≡ true → IsDistinct ◌==◌ (words_of table.now)) }
{
    Ok(have_rising_keys(table) || have_distinct_words(alloc, table)?)
}

// The same by their words. Equal words share a bucket, so only those of the shared ones are sorted, which are few unless the policy is
// made for it.
fn have_distinct_words(alloc: Global, table: &AvTable<'_>) -> Result<bool, AllocError>
    ensures { IfOk result (λ distinct. distinct ≡ true → IsDistinct ◌==◌ (words_of table.now)) }
{
    let marks = mark_words(alloc, table)?;
    let mut words = shared_words(alloc, table, &marks)?;
    words.sort_unstable();
    Ok(words.is_sorted_by(|word, next| word < next))
}

// Whether the keys of all rules, but for extended ones, stand in the order of tables that libsepol wrote.
fn have_rising_keys(table: &AvTable<'_>) -> bool
    ensures { result ≡ true → IsDistinct ◌==◌ (words_of table.now) }
{
    let hashes = ClassHashes::new();
    let mut last = LastKey::first();
    for i in 0..table.len() {
        if let Some(word) = word_at(table, i) {
            if !last.follow(&hashes, word) {
                return false;
            }
        }
    }
    true
}

// The marks of the keys of all rules.
fn mark_words(alloc: Global, table: &AvTable<'_>) -> Result<WordMarks, AllocError>
    ensures { IfOk result (λ marks. AreMarked marks (words_of table.now)) }
{
    let mut marks = WordMarks::new(alloc, table.len())?;
    let mut words = Vec::new(alloc);
    let mut i = 0;
    while i < table.len() {
        i = next_words(&mut words, table, i)?;
        marks.meet_all(&words);
    }
    Ok(marks)
}

// The keys whose buckets are shared, as words, in their order. A quarter of the rules is room for those of most tables.
fn shared_words(
    alloc: Global,
    table: &AvTable<'_>,
    marks: &WordMarks,
) -> Result<Vec<u64>, AllocError>
    ensures { IfOk result (λ found. found.items ≡ filter (is_shared marks.now) (words_of table.now)) }
{
    let mut found = Vec::with_capacity(alloc, table.len() as usize / 4)?;
    let mut words = Vec::new(alloc);
    let mut i = 0;
    while i < table.len() {
        i = next_words(&mut words, table, i)?;
        marks.push_shared(&mut words, &mut found)?;
    }
    Ok(found)
}

// The keys of the next rules as words, in place of those that are there, and the number of the rule behind them.
fn next_words(words: &mut Vec<u64>, table: &AvTable<'_>, from: u32) -> Result<u32, AllocError>
    requires { from < length table.now }
    ensures further { IfOk result (λ to. (from < to) × (to ≤ length table.now)) }
    ensures words { IfOk result (λ to. words_of (take to table.now) ≡ words_of (take from table.now) ++ words.new.items) }
{
    let to = from + (table.len() - from).min(AT_ONCE);
    words.clear();
    for i in from..to {
        if let Some(word) = word_at(table, i) {
            words.push(word)?;
        }
    }
    Ok(to)
}

// The key of a rule as a word, and `None` where it is extended.
#[inline(always)]
fn word_at(table: &AvTable<'_>, i: u32) -> Option<u64>
    requires { i < length table.now }
    ensures { words_of (take (i + 1) table.now) ≡ words_of (take i table.now) ++ option_to_list result }
{
    let rule = table.view(i);
    if is_extended(rule.specified()) {
        None
    } else {
        Some(rule.word())
    }
}
