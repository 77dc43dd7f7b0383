// The types of the attributes, gathered in one pass over the rows, 64 types at a time.
ghost use Rattle.std.specs.Prelude.{◌≡◌, ◌≤◌, ◌<◌, ◌%◌, ◌==◌, ℕ, [], map, IfOk, OnOk, length, replicate, slice_index_or};
ghost use Rattle.std.specs.List.{All};
ghost use Rattle.std.specs.List.Sorted.{IsStrictlyIncreasing};
ghost use Rattle.pol_bitmap.specs.Nodes.{bits_of, has_bit};
ghost use Rattle.pol_expand.specs.Expansion.{HaveRows};
ghost use Rattle.pol_expand.specs.Inner.Inverting.{attribute_bits, has_attribute, AreLists, AreWords, GainNodes, GainType, HaveRoom};

use crate::type_list::TypeList;
use pol_bitmap::{BitmapView, Set};
use std::alloc::{AllocError, Global};

/// Whether a set has a value.
pub fn has_value(set: &Set, value: u32) -> bool
    ensures { result ≡ has_bit set.now value }
{
    set.has(value)
}

/// For each bit the set of the declared types whose row has it. Bits that stand for no attribute have sets of no meaning.
pub fn sets_of(
    alloc: Global,
    rows: &[BitmapView<'_>],
    attributes: &Set,
    types: &Set,
) -> Result<Vec<Set>, AllocError>
    requires few { length rows.now ≤ 65535 }
    requires types { HaveRows rows.now types.now }
    ensures { IfOk result (λ sets. AreLists rows.now attributes.now types.now (map bits_of sets.items)) }
{
    let lists = lists_of(alloc, rows, attributes, types)?;
    let empty = Set::empty(alloc)?;
    let mut sets = Vec::with_capacity(alloc, lists.len())?;
    for list in lists {
        sets.push(list.into_set(alloc, &empty)?)?;
    }
    Ok(sets)
}

// For each bit the list of these types.
fn lists_of(
    alloc: Global,
    rows: &[BitmapView<'_>],
    attributes: &Set,
    types: &Set,
) -> Result<Vec<TypeList>, AllocError>
    requires few { length rows.now ≤ 65535 }
    requires types { HaveRows rows.now types.now }
    ensures { IfOk result (λ lists. AreLists rows.now attributes.now types.now lists.items) }
{
    let bits = attribute_bits(alloc, attributes, rows.len())?;
    let mut lists = empty_lists(alloc, rows.len())?;
    for block in 0..rows.len() / 64 + 1 {
        let start = block as u32 * 64;
        let words = words_of(alloc, rows, types, start)?;
        push_words(&mut lists, &words, &bits, start)?;
    }
    Ok(lists)
}

// The bits that stand for attributes, rising.
fn attribute_bits(alloc: Global, attributes: &Set, count: usize) -> Result<Vec<u32>, AllocError>
    requires { count ≤ 65535 }
    ensures { IfOk result (λ bits. bits.items ≡ attribute_bits attributes.now count) }
{
    let mut bits = Vec::new(alloc);
    for bit in 0..count as u32 {
        if has_value(attributes, bit + 1) {
            bits.push(bit)?;
        }
    }
    Ok(bits)
}

// As many lists of no type.
fn empty_lists(alloc: Global, count: usize) -> Result<Vec<TypeList>, AllocError>
    ensures count { IfOk result (λ lists. length lists.items ≡ count) }
    ensures empty { IfOk result (λ lists. (bit : ℕ) → slice_index_or lists.items bit [] ≡ []) }
{
    let mut lists = Vec::with_capacity(alloc, count)?;
    for _ in 0..count {
        lists.push(TypeList::new(alloc))?;
    }
    Ok(lists)
}

// For each bit a word of the declared types, of the 64 from one on, whose row has it.
fn words_of(
    alloc: Global,
    rows: &[BitmapView<'_>],
    types: &Set,
    start: u32,
) -> Result<Vec<u64>, AllocError>
    requires start { start ≤ 65535 }
    requires types { HaveRows rows.now types.now }
    ensures { IfOk result (λ words. AreWords rows.now types.now start 64 words.items) }
{
    let mut words = no_words(alloc, rows.len())?;
    for place in 0..64 {
        add_type(&mut words, rows, types, start + place, place);
    }
    Ok(words)
}

// As many words, with no bit set.
fn no_words(alloc: Global, count: usize) -> Result<Vec<u64>, AllocError>
    ensures { IfOk result (λ words. words.items ≡ replicate count 0) }
{
    vec![in alloc; 0; count]
}

// Adds a type, if it is declared, to the words of its row's bits.
fn add_type(words: &mut Vec<u64>, rows: &[BitmapView<'_>], types: &Set, value: u32, place: u32)
    requires place { place < 64 }
    requires types { HaveRows rows.now types.now }
    ensures { GainType place (λ bit. has_attribute rows.now types.now bit value) words.old.items words.new.items }
{
    if has_value(types, value) {
        add_row(words, &rows[value as usize - 1], place);
    }
}

// Adds a type to the words of its row's bits.
fn add_row(words: &mut Vec<u64>, row: &BitmapView<'_>, place: u32)
    requires { place < 64 }
    ensures { GainType place (has_bit row.now) words.old.items words.new.items }
{
    for bit in row.bits() {
        add_bit(words, bit, place);
    }
}

// Adds a type to the word of a bit, if there is one.
fn add_bit(words: &mut Vec<u64>, bit: u32, place: u32)
    requires { place < 64 }
    ensures { GainType place (λ other. other == bit) words.old.items words.new.items }
{
    let bit = bit as usize;
    if bit < words.len() {
        words[bit] |= 1 << place;
    }
}

// Adds the types of each attribute's word to its list.
fn push_words(
    lists: &mut [TypeList],
    words: &[u64],
    bits: &[u32],
    start: u32,
) -> Result<(), AllocError>
    requires words { length words.now ≡ length lists.old }
    requires within { All (λ bit. bit < length lists.old) bits.now }
    requires rise { IsStrictlyIncreasing bits.now }
    requires whole { start % 64 ≡ 0 }
    requires room { HaveRoom bits.now start lists.old }
    ensures { OnOk result (GainNodes bits.now start words.now lists.old lists.new) }
{
    for bit in bits {
        let place = *bit as usize;
        lists[place].push_word(start, words[place])?;
    }
    Ok(())
}
