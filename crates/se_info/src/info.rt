// The answer of seinfo about a policy.
ghost use Rattle.std.specs.Prelude.{◌≡◌, [], flat_map, map};
ghost use Rattle.info_summary.specs.Summary.{summary_lines};
ghost use Rattle.se_options.specs.InfoRequest.{info_view, wanted_view};
ghost use Rattle.se_info.specs.InfoAnswer.{info_answer, info_text, wanted_text};
ghost use Rattle.se_info.specs.ListingText.{listing_text, line_text};
ghost use Rattle.se_status.specs.Conclusion.{Concludes, IsPlain};
ghost use Rattle.se_items.specs.Writing.{Sends};

use crate::listing_text::write_listing;
use crate::unknown::first_unknown;
use info_query::lines_of;
use info_summary::summary;
use pol_read::Policy;
use se_items::WriteEnd;
use se_options::{InfoRequest, Wanted};
use se_outside::Sink;
use se_status::{Status, status_written};
use std::alloc::Global;

/// Answers what seinfo is asked of a policy.
#[tactic(auto, unfolding(crate::specs::InfoAnswer::info_answer))]
pub fn answer_info<S: Sink>(
    alloc: Global,
    policy: &Policy<'_>,
    asks: &InfoRequest<'_>,
    out: &mut S,
) -> Status
    ensures answers { Concludes (info_answer (info_view asks.now) policy.now)
        (S.state out.old) (S.state out.new) result }
    ensures plain { IsPlain result }
{
    match first_unknown(policy, &asks.listings) {
        Some(word) => Status::UnknownName(word),
        None => status_written(write_answer(alloc, policy, asks, out)),
    }
}

// Writes the listings that are wanted of a policy, or its summary.
fn write_answer<S: Sink>(
    alloc: Global,
    policy: &Policy<'_>,
    asks: &InfoRequest<'_>,
    out: &mut S,
) -> Result<(), WriteEnd>
    ensures { Sends (S.state out.old) (S.state out.new) (info_text policy.now (info_view asks.now) (info_view asks.now).listings) result }
{
    if asks.listings.is_empty() {
        write_summary(alloc, policy, out)
    } else {
        write_listings(alloc, policy, &asks.listings, asks.expand, asks.flat, out)
    }
}

/// Writes the summary of a policy, a line each.
#[tactic(auto, using(se_items::proofs::Wrotes::nothing_sent))]
pub fn write_summary<S: Sink>(
    alloc: Global,
    policy: &Policy<'_>,
    out: &mut S,
) -> Result<(), WriteEnd>
    ensures { Sends (S.state out.old) (S.state out.new) (flat_map (line_text []) (summary_lines policy.now)) result }
{
    write_listing(alloc, b"", summary(alloc, policy)?, true, out)
}

// Writes listings of a policy.
fn write_listings<S: Sink>(
    alloc: Global,
    policy: &Policy<'_>,
    listings: &[Wanted],
    expand: bool,
    flat: bool,
    out: &mut S,
) -> Result<(), WriteEnd>
    ensures { Sends (S.state out.old) (S.state out.new) (flat_map (wanted_text policy.now expand flat) (map wanted_view listings.now)) result }
{
    for wanted in listings {
        write_wanted(alloc, policy, wanted, expand, flat, out)?;
    }
    Ok(())
}

// Writes a listing of a policy.
#[tactic(auto, using(se_items::proofs::Wrotes::nothing_sent))]
fn write_wanted<S: Sink>(
    alloc: Global,
    policy: &Policy<'_>,
    wanted: &Wanted,
    expand: bool,
    flat: bool,
    out: &mut S,
) -> Result<(), WriteEnd>
    ensures { Sends (S.state out.old) (S.state out.new) (wanted_text policy.now expand flat (wanted_view wanted.now)) result }
{
    let lines = lines_of(alloc, policy, expand, wanted.listing, wanted.text())?;
    write_listing(alloc, wanted.listing.title(), lines, flat, out)
}
