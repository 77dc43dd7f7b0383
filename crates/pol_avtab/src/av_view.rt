ghost use Rattle.std.specs.Prelude.{◌≡◌, ℕ, ◌+◌, ◌^◌, ◌≤◌, ◌<◌, ◌&&◌, true, IfOk, OnOk, Ok, Some, None, option_map, is_some, not, length, if◌then◌else◌};
ghost use Rattle.pol_cursor.specs.Outcome.{Answers, Got};
ghost use Rattle.pol_cursor.specs.References.{dangling_of};
ghost use Rattle.pol_fields.specs.declared.TableKind.TheVariants.{Types, Classes};
ghost use Rattle.pol_avtab.specs.AvKeys.{key_of, has_key, word_of};
ghost use Rattle.pol_avtab.specs.AvRecord.{is_extended, is_kind, extended_at, part_at, av_at, av_in, specified_in, part_in, av_length, av_end, HasAv, av_references, part_references, is_default};
ghost use Rattle.pol_avtab.specs.Inner.DuplicateKeys.{IsFirst};
ghost use Rattle.pol_avtab.specs.XPerms.{mask_of, xperms_of};

use crate::av_key::AvKey;
use crate::av_keys::AvKeys;
use crate::av_rec::{AvPart, AvRec};
use crate::causes::{is_default, is_extended, is_kind, kind_cause, kind_of, xkind_cause};
use crate::codes::AVTAB_ALLOWED;
use crate::xperms::XPerms;
use pol_cursor::{
    Cursor, Mention, Names, dangling, first_dangling, refuse, u16_in, u32_in, u64_in,
};
use pol_fields::fields::{
    AV_BITS, AV_CLASS, AV_DATA, AV_DRIVER, AV_SOURCE, AV_SPECIFIED, AV_TARGET, AV_XKIND,
};
use pol_fields::{Fault, TableKind};
use std::alloc::{AllocError, Global};
use std::marker::Model;

// The mark in the number that the first eight bytes are: the highest bit of what is specified.
const MARK: u64 = 1 << 63;

/// An access vector in the buffer. Contracts see it with its place.
#[derive(Drop)]
pub struct AvView<'a> {
    bytes: &'a [u8],
    place: u32,
}

impl<'a> Model for AvView<'a> {
    ghost use Rattle.pol_cursor.specs.References.{Placed};
    ghost use Rattle.pol_avtab.specs.declared.av_rec.AvRec.{AvRec};
    ghost use Rattle.pol_avtab.specs.AvRecord.{av_in, HasAv};

    ghost Value = { Placed AvRec };

    ghost view = { λ v. record { place = v.place; value = av_in v.bytes.now v.place } };

    ghost invariant = { λ v. HasAv v.bytes.now v.place };
}

impl<'a> AvView<'a> {
    /// The access vector at a place that has one.
    pub fn at(bytes: &'a [u8], place: u32) -> AvView<'a>
        requires { HasAv bytes.now place }
        ensures { result ≡ record { place = place; value = av_in bytes.now place } }
    {
        AvView { bytes, place }
    }

    /// The place of its first byte in the policy.
    pub fn place(&self) -> u32
        ensures { result ≡ self.now.place }
    {
        self.place
    }

    /// The place behind its last byte.
    pub fn end(&self) -> u32
        ensures { result ≡ self.now.place + av_length self.now.value.specified }
    {
        let extended = is_extended(self.specified());
        self.place + if extended { 42 } else { 12 }
    }

    /// The value of the source, a type or an attribute.
    pub fn source(&self) -> u16
        ensures { result ≡ self.now.value.source }
    {
        u16_in(self.bytes, self.place as usize)
    }

    /// The value of the target, a type or an attribute.
    pub fn target(&self) -> u16
        ensures { result ≡ self.now.value.target }
    {
        u16_in(self.bytes, self.place as usize + 2)
    }

    /// The value of the class.
    pub fn class(&self) -> u16
        ensures { result ≡ self.now.value.class }
    {
        u16_in(self.bytes, self.place as usize + 4)
    }

    /// The kind of the rule, one of [`codes`](crate::codes), and the mark `AVTAB_ENABLED`, which has no meaning.
    pub fn specified(&self) -> u16
        ensures { result ≡ self.now.value.specified }
    {
        u16_in(self.bytes, self.place as usize + 6)
    }

    /// What tells it from the other rules of a table.
    pub fn key(&self) -> AvKey
        ensures { result ≡ key_of self.now.value }
    {
        AvKey {
            source: self.source(),
            target: self.target(),
            class: self.class(),
            specified: kind_of(self.specified()),
        }
    }

    /// The four numbers of its key in one: its first eight bytes, unless they have the mark.
    #[tactic(auto, using(crate::proofs::AvReading::plain_word))]
    pub(crate) fn word(&self) -> u64
        ensures { result ≡ word_of (key_of self.now.value) }
    {
        let word = u64_in(self.bytes, self.place as usize);
        if word < MARK { word } else { self.key().word() }
    }

    /// The permissions by their bits, or the value of a default type, where it is not extended.
    pub fn mask(&self) -> Option<u32>
        ensures is { result ≡ mask_of self.now.value.part }
        ensures there { is_some result ≡ not (is_extended self.now.value.specified) }
    {
        if is_extended(self.specified()) {
            None
        } else {
            Some(u32_in(self.bytes, self.place as usize + 8))
        }
    }

    /// Its ioctl numbers, where it is extended.
    pub fn xperms(&self) -> Option<XPerms<'a>>
        ensures is { result ≡ xperms_of self.now.value.part }
        ensures there { is_some result ≡ is_extended self.now.value.specified }
    {
        if is_extended(self.specified()) {
            Some(XPerms::at(self.bytes, self.place + 8))
        } else {
            None
        }
    }

    /// 1 for numbers of one driver, 2 for whole drivers, where it is extended.
    pub fn xkind(&self) -> Option<u8>
        ensures is { result ≡ option_map (λ x. x.xkind) (xperms_of self.now.value.part) }
        ensures there { is_some result ≡ is_extended self.now.value.specified }
    {
        Some(self.xperms()?.xkind())
    }

    /// The driver, where it is extended. It has no meaning where the kind is 2.
    pub fn driver(&self) -> Option<u8>
        ensures is { result ≡ option_map (λ x. x.driver) (xperms_of self.now.value.part) }
        ensures there { is_some result ≡ is_extended self.now.value.specified }
    {
        Some(self.xperms()?.driver())
    }

    /// The 32 bytes of the bits, where it is extended.
    pub fn bits(&self) -> Option<[u8; 32]>
        ensures is { result ≡ option_map (λ x. x.bits) (xperms_of self.now.value.part) }
        ensures there { is_some result ≡ is_extended self.now.value.specified }
    {
        Some(self.xperms()?.bits())
    }

    /// The first of source, target, class and default type that no primary record declares, as a fault at its field.
    #[tactic(auto, using(pol_cursor::proofs::DanglingLists::dangling_none, pol_cursor::proofs::DanglingLists::undeclared_first, crate::proofs::DeclaredEnds::ends_declared))]
    #[inline(always)]
    pub fn dangling<N: Names>(&self, names: &N) -> Option<Fault>
        ensures { result ≡ dangling_of (N.named names.now) (av_references self.now) }
    {
        if self.has_declared_ends(names) {
            return self.dangling_default(names);
        }
        let place = self.place;
        let mentions = [
            Mention::new(AV_SOURCE, place, TableKind::Types, self.source() as u32),
            Mention::new(AV_TARGET, place + 2, TableKind::Types, self.target() as u32),
            Mention::new(AV_CLASS, place + 4, TableKind::Classes, self.class() as u32),
        ];
        match first_dangling(names, &mentions) {
            Some(fault) => Some(fault),
            None => self.dangling_default(names),
        }
    }

    // Whether primary records declare its source, its target and its class, as in nearly all rules.
    fn has_declared_ends<N: Names>(&self, names: &N) -> bool
        ensures { result ≡ (is_some (N.named names.now Types self.now.value.source) && is_some (N.named names.now Types self.now.value.target) && is_some (N.named names.now Classes self.now.value.class)) }
    {
        names.declares(TableKind::Types, self.source() as u32)
            && names.declares(TableKind::Types, self.target() as u32)
            && names.declares(TableKind::Classes, self.class() as u32)
    }

    // The default type, where the data is one that no primary record declares.
    fn dangling_default<N: Names>(&self, names: &N) -> Option<Fault>
        ensures { result ≡ dangling_of (N.named names.now) (part_references (self.now.place + 8) (is_default self.now.value.specified) self.now.value.part) }
    {
        match self.mask() {
            Some(mask) if is_default(self.specified()) => {
                dangling(names, self.place + 8, AV_DATA, TableKind::Types, mask)
            }
            _ => None,
        }
    }

    /// The access vector, owned. It takes no memory, and so there is no error.
    pub fn rec(&self, _alloc: Global) -> Result<AvRec, AllocError>
        ensures { result ≡ Ok self.now.value }
    {
        Ok(AvRec {
            source: self.source(),
            target: self.target(),
            class: self.class(),
            specified: self.specified(),
            part: self.part(),
        })
    }

    // Its last part.
    fn part(&self) -> AvPart
        ensures { result ≡ self.now.value.part }
    {
        match self.xperms() {
            Some(numbers) => AvPart::Extended {
                xkind: numbers.xkind(),
                driver: numbers.driver(),
                bits: numbers.bits(),
            },
            None => AvPart::Data(u32_in(self.bytes, self.place as usize + 8)),
        }
    }
}

/// The access vector at the cursor, which then stands behind it: one of a table, behind rules with these keys, or, with
/// none, one under a condition. Takes no memory.
///
/// `BadSpecified` where a version has no such kind of rule; then `ExtendedInCondition` where an extended one stands under a
/// condition below version 34, and `DuplicateRule` where an earlier rule of the table has its key and it is not extended;
/// then `BadExtendedKind`.
pub fn read_av<'a>(
    c: &mut Cursor<'a>,
    version: u32,
    earlier: Option<&AvKeys>,
) -> Result<AvView<'a>, Fault>
    ensures exact { Answers (λ av. av.value) result (av_at version (option_map (λ keys. keys.now) earlier.entry)) c.old c.new }
    ensures stands { IfOk result (λ av. HasAv c.old.bytes c.old.place × (av ≡ record { place = c.old.place; value = av_in c.old.bytes c.old.place })) }
    ensures next { OnOk result (c.new.place ≡ av_end c.old.bytes c.old.place) }
{
    let bytes = c.bytes();
    let place = c.place();
    pass_av(c, version, earlier)?;
    Ok(AvView { bytes, place })
}

// Passes over the access vector at the cursor.
#[inline(always)]
fn pass_av(c: &mut Cursor<'_>, version: u32, earlier: Option<&AvKeys>) -> Result<(), Fault>
    ensures exact { Answers (λ _. av_in c.old.bytes c.old.place) result (av_at version (option_map (λ keys. keys.now) earlier.entry)) c.old c.new }
    ensures next { OnOk result (c.new.place ≡ av_end c.old.bytes c.old.place) }
    ensures long { OnOk result (c.new.place ≤ length c.old.bytes) }
{
    if is_plain(c, earlier) {
        *c = Cursor::at(c.bytes(), c.place() + 12);
        return Ok(());
    }
    pass_parts(c, version, earlier)
}

// Whether the access vector at the cursor is right at first sight, as nearly all are: it is there whole, each version has its kind,
// and no earlier rule can have its key.
#[tactic(auto, using(crate::proofs::AvReading::plain_read, crate::proofs::AvReading::plain_end))]
fn is_plain(c: &Cursor<'_>, earlier: Option<&AvKeys>) -> bool
    ensures long { result ≡ true → c.now.place + 12 ≤ length c.now.bytes }
    ensures end { result ≡ true → av_end c.now.bytes c.now.place ≡ c.now.place + 12 }
    ensures read { result ≡ true → (version : ℕ) → av_at version (option_map (λ keys. keys.now) earlier.entry) c.now.bytes c.now.place ≡ Got (av_in c.now.bytes c.now.place) (c.now.place + 12) }
{
    is_first(earlier) && has_plain_kind(c.bytes(), c.place() as usize)
}

// Whether no rule is before it.
fn is_first(earlier: Option<&AvKeys>) -> bool
    ensures { result ≡ true → IsFirst (option_map (λ keys. keys.now) earlier.entry) }
{
    match earlier {
        Some(keys) => keys.is_empty(),
        None => true,
    }
}

// Whether 12 bytes are there, and a kind that each version has.
fn has_plain_kind(bytes: &[u8], place: usize) -> bool
    requires { place < 2 ^ 32 }
    ensures long { result ≡ true → place + 12 ≤ length bytes.now }
    ensures kind { result ≡ true → is_kind 0 (specified_in bytes.now place) ≡ true }
{
    place + 12 <= bytes.len() && is_plain_kind(u16_in(bytes, place + 6))
}

/// Whether each version has the kind. That of an allow rule is asked first, since most rules are such.
#[inline(always)]
pub(crate) fn is_plain_kind(kind: u16) -> bool
    ensures { result ≡ is_kind 0 kind }
{
    kind == AVTAB_ALLOWED || is_kind(0, kind)
}

// Passes over its parts, one after the other.
#[tactic(auto, unfolding(crate::specs::AvRecord::av_at))]
#[inline(never)]
fn pass_parts(c: &mut Cursor<'_>, version: u32, earlier: Option<&AvKeys>) -> Result<(), Fault>
    ensures exact { Answers (λ _. av_in c.old.bytes c.old.place) result (av_at version (option_map (λ keys. keys.now) earlier.entry)) c.old c.new }
    ensures next { OnOk result (c.new.place ≡ av_end c.old.bytes c.old.place) }
    ensures long { OnOk result (c.new.place ≤ length c.old.bytes) }
{
    let source = c.u16(AV_SOURCE)?;
    let target = c.u16(AV_TARGET)?;
    let class = c.u16(AV_CLASS)?;
    let place = c.place();
    let specified = c.u16(AV_SPECIFIED)?;
    let key = AvKey {
        source,
        target,
        class,
        specified: kind_of(specified),
    };
    refuse(
        kind_cause(version, among(earlier, key), key),
        place,
        AV_SPECIFIED,
    )?;
    pass_part(c, is_extended(specified))?;
    Ok(())
}

// Whether a key is among those of earlier rules, where there is a table of them.
fn among(earlier: Option<&AvKeys>, key: AvKey) -> Option<bool>
    ensures { result ≡ option_map (λ keys. has_key keys key) (option_map (λ keys. keys.now) earlier.entry) }
{
    Some(earlier?.has(key))
}

// Passes over the part that has to be there.
#[tactic(auto, unfolding(crate::specs::AvRecord::part_at, crate::specs::AvRecord::data_at), using(pol_cursor::proofs::Facts::number_is))]
fn pass_part(c: &mut Cursor<'_>, extended: bool) -> Result<(), Fault>
    ensures exact { Answers (λ _. part_in extended c.old.bytes c.old.place) result (part_at extended) c.old c.new }
    ensures next { OnOk result (c.new.place ≡ c.old.place + (if extended then 34 else 4)) }
    ensures long { OnOk result (c.new.place ≤ length c.old.bytes) }
{
    if extended {
        return pass_extended(c);
    }
    c.u32(AV_DATA)?;
    Ok(())
}

// Passes over the extended part.
#[tactic(auto, unfolding(crate::specs::AvRecord::extended_at), using(crate::proofs::AvReading::extended_read, pol_cursor::proofs::Facts::number_is, pol_cursor::proofs::Facts::string_is))]
fn pass_extended(c: &mut Cursor<'_>) -> Result<(), Fault>
    ensures exact { Answers (λ _. part_in true c.old.bytes c.old.place) result extended_at c.old c.new }
    ensures next { OnOk result (c.new.place ≡ c.old.place + 34) }
    ensures long { OnOk result (c.new.place ≤ length c.old.bytes) }
{
    let place = c.place();
    let xkind = c.u8(AV_XKIND)?;
    refuse(xkind_cause(xkind), place, AV_XKIND)?;
    c.u8(AV_DRIVER)?;
    c.take(32, AV_BITS)?;
    Ok(())
}
