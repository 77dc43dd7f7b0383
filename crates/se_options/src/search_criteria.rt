// The criteria of a search, as words give them.
ghost use Rattle.std.specs.Prelude.{◌≡◌, IfOk, map, option_map};
ghost use Rattle.se_words.specs.Options.{group_view, named_view};
ghost use Rattle.se_options.specs.SearchRequest.{
  asks_for_allow,
  boolean_criterion,
  boolean_mode,
  criteria_in,
  criterion_of,
  end_criterion,
  end_mode,
  kinds_in,
  name_criterion,
  name_mode,
  number_criterion,
  number_mode,
  permission_criterion,
  permission_mode,
};

use rule_criteria::{Criteria, Criterion, CriterionText, Mode};
use se_words::{Group, Named, given_value, is_given};
use std::alloc::{AllocError, Global};

// The criteria of groups of words.
pub fn criteria_in(alloc: Global, groups: &[Group<'_>]) -> Result<Criteria, AllocError>
    ensures { IfOk result (λ criteria. criteria ≡ criteria_in (map group_view groups.now)) }
{
    Ok(Criteria {
        kinds: kinds_in(groups),
        source: end_criterion(alloc, groups, "--source", "-ds", "-rs")?,
        target: end_criterion(alloc, groups, "--target", "-dt", "-rt")?,
        class: name_criterion(alloc, groups, "--class", "-rc")?,
        perms: permission_criterion(alloc, groups)?,
        xperms: number_criterion(alloc, groups)?,
        default: name_criterion(alloc, groups, "--default", "-rd")?,
        bools: boolean_criterion(alloc, groups)?,
    })
}

// The kinds of rules that are asked for.
pub fn kinds_in(groups: &[Group<'_>]) -> [bool; 12]
    ensures { result ≡ kinds_in (map group_view groups.now) }
{
    [
        asks_for_allow(groups, "--allow"),
        is_given(groups, "--auditallow"),
        is_given(groups, "--dontaudit"),
        asks_for_allow(groups, "--allowxperm"),
        is_given(groups, "--auditallowxperm"),
        is_given(groups, "--dontauditxperm"),
        is_given(groups, "--type_trans"),
        is_given(groups, "--type_change"),
        is_given(groups, "--type_member"),
        is_given(groups, "--role_allow"),
        is_given(groups, "--role_trans"),
        is_given(groups, "--range_trans"),
    ]
}

// Whether the allow rules of the option are asked for, by it or by `-A`.
fn asks_for_allow(groups: &[Group<'_>], option: &str) -> bool
    ensures { result ≡ asks_for_allow option.now (map group_view groups.now) }
{
    is_given(groups, "-A") || is_given(groups, option)
}

// The criterion of an option for a source or a target, with the options that compare it directly, and by a pattern.
fn end_criterion(
    alloc: Global,
    groups: &[Group<'_>],
    option: &str,
    direct: &str,
    pattern: &str,
) -> Result<Option<Criterion>, AllocError>
    ensures { IfOk result (λ criterion. criterion ≡ end_criterion option.now direct.now pattern.now (map group_view groups.now)) }
{
    let mode = end_mode(is_given(groups, direct), is_given(groups, pattern));
    criterion_of(alloc, mode, given_value(groups, option))
}

// The criterion of an option for a class or a default, with the option that compares it by a pattern.
fn name_criterion(
    alloc: Global,
    groups: &[Group<'_>],
    option: &str,
    pattern: &str,
) -> Result<Option<Criterion>, AllocError>
    ensures { IfOk result (λ criterion. criterion ≡ name_criterion option.now pattern.now (map group_view groups.now)) }
{
    criterion_of(
        alloc,
        name_mode(is_given(groups, pattern)),
        given_value(groups, option),
    )
}

// The criterion for permissions.
fn permission_criterion(
    alloc: Global,
    groups: &[Group<'_>],
) -> Result<Option<Criterion>, AllocError>
    ensures { IfOk result (λ criterion. criterion ≡ permission_criterion (map group_view groups.now)) }
{
    let mode = permission_mode(is_given(groups, "-ep"), is_given(groups, "-Sp"));
    criterion_of(alloc, mode, given_value(groups, "--perms"))
}

// The criterion for ioctl numbers.
fn number_criterion(alloc: Global, groups: &[Group<'_>]) -> Result<Option<Criterion>, AllocError>
    ensures { IfOk result (λ criterion. criterion ≡ number_criterion (map group_view groups.now)) }
{
    criterion_of(
        alloc,
        number_mode(is_given(groups, "-ex")),
        given_value(groups, "--xperms"),
    )
}

// The criterion for booleans.
fn boolean_criterion(alloc: Global, groups: &[Group<'_>]) -> Result<Option<Criterion>, AllocError>
    ensures { IfOk result (λ criterion. criterion ≡ boolean_criterion (map group_view groups.now)) }
{
    let mode = boolean_mode(is_given(groups, "-eb"), is_given(groups, "-rb"));
    criterion_of(alloc, mode, given_value(groups, "--bool"))
}

// A criterion of the value that an option is given.
fn criterion_of(
    alloc: Global,
    mode: Mode,
    value: Option<Named<'_>>,
) -> Result<Option<Criterion>, AllocError>
    ensures { IfOk result (λ criterion. criterion ≡ criterion_of mode (option_map named_view value.entry)) }
{
    match value {
        None => Ok(None),
        Some(name) => {
            let text = String::from_str(alloc, name.text)?;
            Ok(Some(Criterion {
                text: CriterionText::from_string(text),
                word: name.word,
                mode,
            }))
        }
    }
}

// How a source or a target is compared, by whether that is directly, and by a pattern.
fn end_mode(direct: bool, pattern: bool) -> Mode
    ensures { result ≡ end_mode direct pattern }
{
    match (direct, pattern) {
        (false, false) => Mode::Plain,
        (true, false) => Mode::Direct,
        (false, true) => Mode::Pattern,
        (true, true) => Mode::PatternDirect,
    }
}

// How a class or a default is compared, by whether that is by a pattern.
fn name_mode(pattern: bool) -> Mode
    ensures { result ≡ name_mode pattern }
{
    if pattern { Mode::Pattern } else { Mode::Plain }
}

// How permissions are compared, by whether those are equal sets, and a subset.
fn permission_mode(equal: bool, subset: bool) -> Mode
    ensures { result ≡ permission_mode equal subset }
{
    if equal {
        Mode::Equal
    } else if subset {
        Mode::Subset
    } else {
        Mode::Plain
    }
}

// How ioctl numbers are compared, by whether those are equal sets.
fn number_mode(equal: bool) -> Mode
    ensures { result ≡ number_mode equal }
{
    if equal { Mode::Equal } else { Mode::Plain }
}

// How booleans are compared, by whether those are equal sets, and by a pattern.
fn boolean_mode(equal: bool, pattern: bool) -> Mode
    ensures { result ≡ boolean_mode equal pattern }
{
    if equal {
        Mode::Equal
    } else if pattern {
        Mode::Pattern
    } else {
        Mode::Plain
    }
}
