// What the words of a command line ask for.
ghost use Rattle.se_options.specs.Request.{Understands, request_of};

use crate::check_options::check_request;
use crate::convert_options::convert_request;
use crate::dom_options::dom_request;
use crate::flow_options::flow_request;
use crate::info_options::info_request;
use crate::make_options::make_request;
use crate::search_options::search_request;
use crate::{
    CheckRequest, ConvertRequest, DomRequest, FlowRequest, InfoRequest, MakeRequest, SearchRequest,
    WordsError,
};
use se_words::Words;
use std::alloc::Global;

/// What the words ask for, and of which tool.
#[derive(Drop)]
pub enum Request<'w> {
    /// `seinfo`
    Info(InfoRequest<'w>),
    /// `sesearch`
    Search(SearchRequest<'w>),
    /// `sedta`
    Dom(DomRequest<'w>),
    /// `seinfoflow`
    Flow(FlowRequest<'w>),
    /// `seconvert`
    Convert(ConvertRequest<'w>),
    /// `sechecker`
    Check(CheckRequest<'w>),
    /// `make`
    Make(MakeRequest),
}

/// What the words ask for.
pub fn request_of(alloc: Global, words: &Words) -> Result<Request<'_>, WordsError>
    ensures { Understands result (request_of words.now) }
{
    match words.as_slice() {
        [tool, rest @ ..] if tool.is("seinfo") => Ok(Request::Info(info_request(alloc, rest)?)),
        [tool, rest @ ..] if tool.is("sesearch") => {
            Ok(Request::Search(search_request(alloc, rest)?))
        }
        [tool, rest @ ..] if tool.is("sedta") => Ok(Request::Dom(dom_request(alloc, rest)?)),
        [tool, rest @ ..] if tool.is("seinfoflow") => Ok(Request::Flow(flow_request(alloc, rest)?)),
        [tool, rest @ ..] if tool.is("seconvert") => {
            Ok(Request::Convert(convert_request(alloc, rest)?))
        }
        [tool, rest @ ..] if tool.is("sechecker") => {
            Ok(Request::Check(check_request(alloc, rest)?))
        }
        [tool, rest @ ..] if tool.is("make") => Ok(Request::Make(make_request(alloc, rest)?)),
        _ => Err(WordsError::Usage(1)),
    }
}
