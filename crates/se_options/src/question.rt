// What is asked about a policy.
use crate::{CheckRequest, ConvertRequest, DomRequest, FlowRequest, InfoRequest, SearchRequest};

/// What is asked about a policy, and of which tool: each request but that of `make`.
#[derive(Clone, Copy)]
pub enum Question<'r, 'w> {
    /// `seinfo`
    Info(&'r InfoRequest<'w>),
    /// `sesearch`
    Search(&'r SearchRequest<'w>),
    /// `sedta`
    Dom(&'r DomRequest<'w>),
    /// `seinfoflow`
    Flow(&'r FlowRequest<'w>),
    /// `seconvert`
    Convert(&'r ConvertRequest<'w>),
    /// `sechecker`
    Check(&'r CheckRequest<'w>),
}

impl<'r, 'w> Question<'r, 'w> {
    ghost use Rattle.std.specs.Prelude.{◌≡◌};
    ghost use Rattle.se_options.specs.Request.{policy_of, question_view};

    /// The name of the policy.
    pub fn policy(&self) -> &'w str
        ensures { result.now ≡ (policy_of (question_view self.now)).text }
    {
        match self {
            Question::Info(asks) => asks.policy.text,
            Question::Search(asks) => asks.policy.text,
            Question::Dom(asks) => asks.policy.text,
            Question::Flow(asks) => asks.policy.text,
            Question::Convert(asks) => asks.policy.text,
            Question::Check(asks) => asks.policy.text,
        }
    }
}
