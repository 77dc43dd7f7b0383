//! What has become of the constraints that one policy has alone, and the lines of that.

ghost use Rattle.std.specs.Prelude.{◌≡◌, ◌≤◌, ◌∷◌, [], ◌++◌, IfOk, OnOk, length, map};
ghost use Rattle.std.specs.List.{flat_map, prefix_len};
ghost use Rattle.diff_constraints.specs.StatedConstraints.{keyword_text, kind_of};
ghost use Rattle.diff_constraints.specs.ConstraintDifferences.{change_line, changes_of_group, changes_of_two, grouped, line_with, modified_line, same_key, sign_text, subject_stated};

use crate::alone::{Sole, same_key};
use crate::filled_text::{push_filled, set_pieces};
use crate::keyword::{ConstraintKeyword, keyword_text, kind_of};
use crate::stated::Stated;
use diff_entries::Text;
use info_classes::ConstraintKind;
use std::alloc::{AllocError, Global};

/// The lines of the changes of constraints that one policy has alone, group by group.
pub(crate) fn lines_of_groups(
    alloc: Global,
    keyword: ConstraintKeyword,
    soles: &[Sole<'_, '_>],
) -> Result<Vec<Text>, AllocError>
    ensures { IfOk result (λ lines. lines.items ≡ map (change_line keyword) (flat_map changes_of_group (grouped soles.now))) }
{
    let mut lines = Vec::new(alloc);
    let mut start = 0;
    'groups: while start < soles.len() {
        let end = start + 1 + run_len(&soles[start], &soles[start + 1..]);
        push_group(&mut lines, keyword, &soles[start..end])?;
        start = end;
    }
    Ok(lines)
}

// How many of those behind a constraint have its key, up to the first that has another.
fn run_len(sole: &Sole<'_, '_>, others: &[Sole<'_, '_>]) -> usize
    ensures exact { result ≡ prefix_len (same_key sole.now) others.now }
    ensures within { result ≤ length others.now }
{
    let mut len = 0;
    for other in others {
        if !same_key(sole, other) {
            return len;
        }
        len += 1;
    }
    len
}

// Adds the lines of the changes of a group.
fn push_group(
    lines: &mut Vec<Text>,
    keyword: ConstraintKeyword,
    group: &[Sole<'_, '_>],
) -> Result<(), AllocError>
    ensures { OnOk result (lines.new.items ≡ lines.old.items ++ map (change_line keyword) (changes_of_group group.now)) }
{
    if group.len() == 2 {
        push_two(lines, keyword, &group[0], &group[1])
    } else {
        push_each(lines, group)
    }
}

// Adds the lines of two constraints that have one key.
fn push_two(
    lines: &mut Vec<Text>,
    keyword: ConstraintKeyword,
    sole: &Sole<'_, '_>,
    other: &Sole<'_, '_>,
) -> Result<(), AllocError>
    ensures { OnOk result (lines.new.items ≡ lines.old.items ++ map (change_line keyword) (changes_of_two sole.now.is_new other.now.is_new sole.now other.now)) }
{
    match (sole.is_new, other.is_new) {
        (false, true) => push_modified(lines, keyword, sole.stated, other.stated),
        (true, false) => push_modified(lines, keyword, other.stated, sole.stated),
        _ => {
            push_sole(lines, sole)?;
            push_sole(lines, other)
        }
    }
}

// Adds the line of each, removed or added.
fn push_each(lines: &mut Vec<Text>, soles: &[Sole<'_, '_>]) -> Result<(), AllocError>
    ensures { OnOk result (lines.new.items ≡ lines.old.items ++ map (λ sole. sign_text sole.is_new ++ sole.stated.line) soles.now) }
{
    for sole in soles {
        push_sole(lines, sole)?;
    }
    Ok(())
}

// Adds the line of a constraint that is removed or added.
fn push_sole(lines: &mut Vec<Text>, sole: &Sole<'_, '_>) -> Result<(), AllocError>
    ensures { OnOk result (lines.new.items ≡ lines.old.items ++ (sign_text sole.now.is_new ++ sole.now.stated.line) ∷ []) }
{
    let stated = sole.stated;
    let mut line = Vec::new(*lines.allocator());
    line.extend_from_slice(sign_text(sole.is_new))?;
    line.extend_from_slice(stated.line.bytes())?;
    lines.push(Text::new(line))?;
    Ok(())
}

// What stands before an added or a removed constraint.
fn sign_text(is_new: bool) -> &'static [u8]
    ensures { result.now ≡ sign_text is_new }
{
    if is_new { b"+ " } else { b"- " }
}

// Adds the line of a constraint that is modified.
fn push_modified(
    lines: &mut Vec<Text>,
    keyword: ConstraintKeyword,
    old: &Stated<'_>,
    new: &Stated<'_>,
) -> Result<(), AllocError>
    ensures { OnOk result (lines.new.items ≡ lines.old.items ++ modified_line keyword old.now new.now ∷ []) }
{
    let line = modified_line(*lines.allocator(), keyword, old, new)?;
    lines.push(Text::new(line))?;
    Ok(())
}

// The line of a constraint that is modified.
fn modified_line(
    alloc: Global,
    keyword: ConstraintKeyword,
    old: &Stated<'_>,
    new: &Stated<'_>,
) -> Result<Vec<u8>, AllocError>
    ensures { IfOk result (λ line. line.items ≡ modified_line keyword old.now new.now) }
{
    let pieces = set_pieces(alloc, &old.sets, &new.sets)?;
    let mut line = Vec::new(alloc);
    line.extend_from_slice(b"* ")?;
    push_line_with(&mut line, keyword, old, &pieces)?;
    Ok(line)
}

// Adds the line of a constraint with these texts in place of its sets.
fn push_line_with(
    line: &mut Vec<u8>,
    keyword: ConstraintKeyword,
    stated: &Stated<'_>,
    pieces: &[Text],
) -> Result<(), AllocError>
    ensures { OnOk result (line.new.items ≡ line.old.items ++ line_with keyword stated.now pieces.now) }
{
    line.extend_from_slice(keyword_text(keyword))?;
    push_subject(line, keyword, stated)?;
    line.extend_from_slice(b" (")?;
    push_filled(line, stated.skeleton.bytes(), pieces)?;
    line.extend_from_slice(b");")
}

// Adds what a constraint is about.
fn push_subject(
    line: &mut Vec<u8>,
    keyword: ConstraintKeyword,
    stated: &Stated<'_>,
) -> Result<(), AllocError>
    ensures { OnOk result (line.new.items ≡ line.old.items ++ subject_stated (kind_of keyword) stated.now) }
{
    line.extend_from_slice(stated.class)?;
    match kind_of(keyword) {
        ConstraintKind::OnPermissions => {
            line.push(b' ')?;
            line.extend_from_slice(stated.permissions.bytes())
        }
        ConstraintKind::OnChange => Ok(()),
    }
}
