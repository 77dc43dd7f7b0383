// What the words after `sesearch` ask for.
ghost use Rattle.std.specs.Prelude.{◌≡◌, IfOk, map};
ghost use Rattle.se_words.specs.Options.{group_view, named_view, row_view};
ghost use Rattle.se_words.specs.Word.{text_of};
ghost use Rattle.se_options.specs.Asked.{Says, asked_by};
ghost use Rattle.se_options.specs.SearchRequest.{asks_for_rules, modes_agree, search_asks, search_in, search_options, search_view};

use crate::asked::{fitting_groups, missing};
use crate::search_criteria::{criteria_in, kinds_in};
use crate::window::{from_in, from_option, limit_in, limit_kind};
use crate::{SearchRequest, WordsError};
use se_words::{
    Group, Named, OptionRow, ValueKind, Word, first_positional, is_given, switch, valued,
};
use std::alloc::{AllocError, Global};

// What the words after `sesearch` ask for. One of them is positional, the policy.
pub fn search_request<'w>(alloc: Global, words: &'w [Word]) -> Result<SearchRequest<'w>, WordsError>
    ensures { Says search_view result (asked_by search_options 1 search_in (map text_of words.now)) }
{
    let groups = fitting_groups(alloc, &search_options(), 1, words)?;
    let Some(policy) = first_positional(&groups) else {
        return Err(missing(words));
    };
    if !(asks_for_rules(&groups) && modes_agree(&groups)) {
        return Err(missing(words));
    }
    Ok(search_asks(alloc, policy, &groups)?)
}

// What groups of words ask of a policy.
fn search_asks<'w>(
    alloc: Global,
    policy: Named<'w>,
    groups: &[Group<'w>],
) -> Result<SearchRequest<'w>, AllocError>
    ensures { IfOk result (λ request. search_view request ≡ search_asks (named_view policy.entry) (map group_view groups.now)) }
{
    Ok(SearchRequest {
        policy,
        criteria: criteria_in(alloc, groups)?,
        singles: is_given(groups, "--singles"),
        from: from_in(groups),
        limit: limit_in(groups, "-l"),
    })
}

// Whether at least one kind of rules is asked for.
fn asks_for_rules(groups: &[Group<'_>]) -> bool
    ensures { result ≡ asks_for_rules (map group_view groups.now) }
{
    kinds_in(groups).iter().any(|asked| *asked)
}

// Whether no two options exclude each other that say how a criterion is compared.
fn modes_agree(groups: &[Group<'_>]) -> bool
    ensures { result ≡ modes_agree (map group_view groups.now) }
{
    !(is_given(groups, "-ep") && is_given(groups, "-Sp"))
        && !(is_given(groups, "-eb") && is_given(groups, "-rb"))
}

// The options of sesearch.
#[tactic(auto, unfolding(crate::specs::SearchRequest::search_options))]
fn search_options() -> [OptionRow; 34]
    ensures { map row_view result ≡ search_options }
{
    [
        switch(None, "-A"),
        switch(None, "--allow"),
        switch(None, "--auditallow"),
        switch(None, "--dontaudit"),
        switch(None, "--allowxperm"),
        switch(None, "--auditallowxperm"),
        switch(None, "--dontauditxperm"),
        switch(Some("-T"), "--type_trans"),
        switch(None, "--type_change"),
        switch(None, "--type_member"),
        switch(None, "--role_allow"),
        switch(None, "--role_trans"),
        switch(None, "--range_trans"),
        valued(Some("-s"), "--source", ValueKind::Text),
        valued(Some("-t"), "--target", ValueKind::Text),
        valued(Some("-c"), "--class", ValueKind::CommaListUnless("-rc")),
        valued(Some("-p"), "--perms", ValueKind::CommaList),
        valued(Some("-x"), "--xperms", ValueKind::CommaList),
        valued(Some("-D"), "--default", ValueKind::Text),
        valued(Some("-b"), "--bool", ValueKind::CommaListUnless("-rb")),
        switch(None, "-ds"),
        switch(None, "-dt"),
        switch(None, "-rs"),
        switch(None, "-rt"),
        switch(None, "-rc"),
        switch(None, "-rd"),
        switch(None, "-rb"),
        switch(None, "-ep"),
        switch(None, "-ex"),
        switch(None, "-eb"),
        switch(None, "-Sp"),
        switch(None, "--singles"),
        valued(None, "-l", limit_kind()),
        from_option(),
    ]
}
