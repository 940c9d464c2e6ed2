//! Answers to requests, as lines of text.

ghost use Rattle.tool_answers.specs.Depth.{IsWithinDepth};

use crate::{copy, head, skip, string, value};
use std::alloc::{AllocError, Global};
use tool_requests::request::Request;

/// Answers a line. The error says that there is no memory for the answer.
#[tactic(auto, using(crate::proofs::DepthLaws::within_depth))]
pub fn line(alloc: Global, line: &[u8], sink: &mut String) -> Result<(), AllocError> {
    match Request::parse(alloc, line)? {
        Some(request) => answer(alloc, &request, sink),
        None => sink.push_str("error: line\n"),
    }
}

/// Answers a request. Each kind of request has a function of its own.
fn answer(alloc: Global, request: &Request, sink: &mut String) -> Result<(), AllocError>
    requires { IsWithinDepth request.now }
{
    match request {
        Request::Heads(bytes) => head::heads(bytes.as_slice(), sink),
        Request::Chunks(asked) => string::chunks(alloc, asked, sink),
        Request::Bytes(asked) => value::bytes(alloc, asked, sink),
        Request::Text(asked) => value::text(alloc, asked, sink),
        Request::Recode(asked) => copy::elements(alloc, asked, sink),
        Request::Strict(asked) => copy::strict_elements(alloc, asked, sink),
        Request::Skip(asked) => skip::item(asked, sink),
    }
}
