// The lines of rules between single types, some of a row at a time.
ghost use Rattle.std.specs.Prelude.{◌≡◌, ◌<◌, IfOk, length, map, min};
ghost use Rattle.set_products.specs.Members.{members};
ghost use Rattle.se_items.specs.Paging.{most_items, page};
ghost use Rattle.se_search.specs.Inner.RowLines.{IsLast};
ghost use Rattle.se_search.specs.SearchAnswer.{single_line};
ghost use Rattle.se_search.specs.Inner.SingleLines.{AreOfRules, BeginsRow, CanBegin, StandsIn, end_of, lines_left};

use crate::row_lines::{RowLines, SourceFrame, frame_between, push_targets};
use rule_text::RuleTexts;
use se_items::{MOST_ITEMS, Pieces, Window};
use set_products::{Place, Places, Row};
use std::alloc::{AllocError, Global};

// The most lines that are added at a time.
const MOST_LINES: u64 = 64;

/// The lines of the members of places, from one of them up to another.
#[derive(Drop)]
pub struct SingleLines<'s, 'p, 'a> {
    texts: &'s RuleTexts<'p, 'a>,
    places: Places<'s>,
    // so many members are before the next line, and before the end
    passed: u64,
    end: u64,
    // the row of the next line, or that of the last one, and the place behind it
    row: Option<RowLines<'s, 'p, 'a>>,
    after: Place,
}

impl<'s, 'p, 'a> SingleLines<'s, 'p, 'a> {
    /// The lines of the members of places, but for so many at the front, and at most so many. What stands at the front is passed over
    /// entry by entry.
    pub fn new(
        texts: &'s RuleTexts<'p, 'a>,
        places: Places<'s>,
        window: Window,
    ) -> SingleLines<'s, 'p, 'a>
        requires { AreOfRules texts.now places }
        ensures stands { StandsIn result }
        ensures lines { lines_left result ≡ page window.from window.limit (map (single_line texts.now) (members places.entry)) }
    {
        let all = count_listed(&places);
        let passed = window.from.min(all);
        let after = places.skip(passed);
        SingleLines {
            texts,
            places,
            passed,
            end: end_of(all, passed, window.limit),
            row: None,
            after,
        }
    }

    // Begins the row of the place behind the last one, whose frame is handed in.
    fn begin_row(
        &mut self,
        alloc: Global,
        last: Option<SourceFrame<'p, 'a>>,
    ) -> Result<(), AllocError>
        requires can { CanBegin self.old }
        requires last { IsLast self.old.texts.now last }
        ensures { IfOk result (λ _. BeginsRow self.old self.new) }
    {
        let Some((row, after)) = self.places.row(self.after) else {
            unreachable!()
        };
        let frame = frame_between(alloc, self.texts, last, row.rule, row.source)?;
        self.row = Some(RowLines { row, frame });
        self.after = after;
        Ok(())
    }
}

impl Pieces for SingleLines<'_, '_, '_> {
    ghost use Rattle.se_search.specs.Inner.SingleLines.{text_left};

    ghost left = { text_left };

    ghost stands = { λ lines. StandsIn lines };

    // Adds some of the lines that are left, or begins a row.
    fn push_piece(&mut self, buffer: &mut Vec<u8>) -> Result<bool, AllocError> {
        if self.passed >= self.end {
            return Ok(false);
        }
        let Some(lines) = self.row.take() else {
            self.begin_row(*buffer.allocator(), None)?;
            return Ok(true);
        };
        let RowLines { mut row, frame } = lines;
        let most = MOST_LINES.min(self.end - self.passed);
        let count = push_targets(&frame, &mut row.targets, most, buffer)?;
        if count == 0 {
            self.begin_row(*buffer.allocator(), Some(frame))?;
            return Ok(true);
        }
        self.passed += count;
        self.row = Some(RowLines { row, frame });
        Ok(true)
    }
}

// How many members are there, within a listing.
fn count_listed(places: &Places<'_>) -> u64
    ensures { result ≡ min most_items (length (members places.now)) }
{
    u128::from(MOST_ITEMS).min(places.count()) as u64
}

// How many members are before the end, of all, where so many are passed over and at most so many are asked for.
fn end_of(all: u64, passed: u64, limit: Option<u64>) -> u64
    ensures { result ≡ end_of all passed limit }
{
    match limit {
        Some(count) => passed.saturating_add(count).min(all),
        None => all,
    }
}
