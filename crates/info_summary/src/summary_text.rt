// The summary of a policy.
ghost use Rattle.std.specs.Prelude.{◌≡◌, IfOk, map};
ghost use Rattle.info_summary.specs.SummaryLines.{entry_line};
ghost use Rattle.info_summary.specs.Counts.{permissive_count};
ghost use Rattle.info_summary.specs.Summary.{unknown_word, header_lines, mark_lines, summary_lines};

use crate::context_counts::context_counts;
use crate::entry::{Entry, Value, count, push_entry};
use crate::rule_counts::rule_counts;
use crate::symbol_counts::{constraint_counts, symbol_counts};
use info_lines::{EntryLines, EntryText};
use info_symbols::{TypeSet, set_numbers};
use pol_read::Policy;
use std::alloc::{AllocError, Global};
use std::marker::Model;

/// The lines of a summary, by their numbers. Contracts see all of them.
#[derive(Drop)]
pub struct SummaryText {
    entries: Vec<Entry>,
}

impl Model for SummaryText {
    ghost use Rattle.std.specs.Prelude.{ℕ, List, map};
    ghost use Rattle.info_summary.specs.SummaryLines.{entry_line};

    ghost Value = { List (List ℕ) };

    ghost view = { λ text. map entry_line text.entries.items };
}

impl EntryText for SummaryText {
    ghost lines = { λ text. text };

    fn len(&self) -> usize {
        self.entries.len()
    }

    #[tactic(auto, using(info_lines::proofs::ListingLines::line_at))]
    fn push_text(&self, number: usize, buffer: &mut Vec<u8>) -> Result<(), AllocError> {
        push_entry(buffer, &self.entries[number])
    }
}

/// The lines of a summary that are left.
pub type SummaryLines = EntryLines<SummaryText>;

/// The summary of a policy: its version, how it treats unknown classes, and how many it has of each thing.
pub fn summary(alloc: Global, policy: &Policy<'_>) -> Result<SummaryLines, AllocError>
    ensures { IfOk result (λ lines. lines ≡ summary_lines policy.now) }
{
    let entries = summary_entries(alloc, policy)?;
    Ok(EntryLines::new(SummaryText { entries }))
}

// What its lines say.
#[tactic(auto, unfolding(crate::specs::Summary::summary_lines))]
fn summary_entries(alloc: Global, policy: &Policy<'_>) -> Result<Vec<Entry>, AllocError>
    ensures { IfOk result (λ entries. map entry_line entries.items ≡ summary_lines policy.now) }
{
    let permissive = count_permissive(alloc, policy)?;
    let mut entries = Vec::from_slice(alloc, &header_entries(policy))?;
    entries.extend_from_slice(&symbol_counts(policy.symbols()))?;
    entries.extend_from_slice(&rule_counts(policy))?;
    entries.extend_from_slice(&constraint_counts(policy.symbols()))?;
    entries.extend_from_slice(&context_counts(policy))?;
    entries.extend_from_slice(&mark_counts(policy, permissive))?;
    Ok(entries)
}

// The version, and how unknown classes and permissions are treated.
fn header_entries(policy: &Policy<'_>) -> [Entry; 2]
    ensures { map entry_line result ≡ header_lines policy.now.front.header.version policy.now.front.header.config }
{
    [
        count("Policy version", u64::from(policy.version())),
        Entry {
            words: "Unknown classes",
            value: Value::Word(unknown_word(policy.config())),
        },
    ]
}

// How the config of a header says that they are treated.
fn unknown_word(config: u32) -> &'static str
    ensures { result.now ≡ unknown_word config }
{
    if config / 2 % 2 == 1 {
        "reject"
    } else if config / 4 % 2 == 1 {
        "allow"
    } else {
        "deny"
    }
}

// How many types are permissive.
fn count_permissive(alloc: Global, policy: &Policy<'_>) -> Result<u64, AllocError>
    ensures { IfOk result (λ count. count ≡ permissive_count policy.now) }
{
    Ok(set_numbers(alloc, policy, TypeSet::PermissiveTypes)?.len() as u64)
}

// The counts of permissive types and of capabilities.
fn mark_counts(policy: &Policy<'_>, permissive: u64) -> [Entry; 2]
    requires { permissive ≡ permissive_count policy.now }
    ensures { map entry_line result ≡ mark_lines policy.now }
{
    [
        count("Permissive types", permissive),
        count("Policy capabilities", policy.capabilities().count()),
    ]
}
