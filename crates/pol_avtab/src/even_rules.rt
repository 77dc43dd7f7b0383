//! Rules that take twelve bytes each, one behind the other, and so are found by their numbers alone.

ghost use Rattle.std.specs.Prelude.{◌≡◌, ◌<◌, ◌≤◌, ◌+◌, ◌*◌, ◌==◌, ℕ, Bool, Some, true, false, length, option_map};
ghost use Rattle.pol_fields.specs.declared.limits.TheConstants.{MAX_POLICY_BYTES};
ghost use Rattle.std.specs.List.{IsDistinct};
ghost use Rattle.pol_avtab.specs.Inner.EvenRules.{even_rules, HasEven};
ghost use Rattle.pol_avtab.specs.Inner.DuplicateKeys.{rules_behind, words_of, IsRead};

use crate::av_table::AvTable;
use crate::av_view::is_plain_kind;
use crate::key_order::{ClassHashes, LastKey};
use pol_cursor::{Cursor, Records, u16_in, u64_in};
use std::alloc::Global;

/// The next n rules, where all are of kinds that each version has, each as if it were the first, and whether they stand in the order
/// of tables that libsepol wrote, so that no two have the same key. Takes no memory.
#[tactic(auto, using(crate::proofs::EvenRules::even_stand, crate::proofs::EvenRules::even_read))]
pub(crate) fn read_even_rules<'a>(
    alloc: Global,
    c: &mut Cursor<'a>,
    n: u32,
) -> Option<(AvTable<'a>, bool)>
    ensures read { (version : ℕ) → IsRead (rules_behind version false n) (option_map (λ found. found.0) result) c.old c.new }
    ensures rising { (table : _) → result ≡ Some (table, true) → IsDistinct ◌==◌ (words_of table) }
{
    let bytes = c.bytes();
    let place = c.place();
    let end = u64::from(place) + u64::from(n) * 12;
    if end > bytes.len() as u64 {
        return None;
    }
    let rising = look_over(bytes, place, n)?;
    *c = Cursor::at(bytes, end as u32);
    Some((Records::even(alloc, bytes, place, 12, n), rising))
}

// Looks once at so many rules that are there: whether all are of kinds that each version has, and, if so, whether their keys stand in
// the order of tables that libsepol wrote.
fn look_over(bytes: &[u8], place: u32, n: u32) -> Option<bool>
    requires long { place + n * 12 ≤ length bytes.now }
    requires small { length bytes.now ≤ MAX_POLICY_BYTES }
    ensures plain { (rising : Bool) → result ≡ Some rising → HasEven bytes.now place n }
    ensures rising { result ≡ Some true → IsDistinct ◌==◌ (words_of (even_rules bytes.now place n)) }
{
    let hashes = ClassHashes::new();
    let mut last = LastKey::first();
    let mut rising = true;
    for i in 0..n {
        let rule = (place + i * 12) as usize;
        if !is_plain_kind(u16_in(bytes, rule + 6)) {
            return None;
        }
        rising = rising && last.follow(&hashes, u64_in(bytes, rule));
    }
    Some(rising)
}
