// Requests to a service itself: for its page, and that it shut down.
ghost use Rattle.std.specs.Prelude.{◌≡◌};
ghost use Rattle.rest_parse.specs.Calls.{UnlessMemory};
ghost use Rattle.rest_parse.specs.Sites.{site_call, site_meaning, site_method};

use crate::calls::{HttpFault, bad_parameter};
use crate::query::{read_pairs, split_target};
use crate::review_pairs::{Form, unfit_name};
use rest_stream::RawRequest;
use std::alloc::Global;

/// What a client may ask of a service itself.
#[derive(Clone, Copy, Debug, PartialEq, Eq)]
pub enum SiteCall {
    /// `GET /`: its page.
    Page,
    /// `POST /cluster/close`: that it shut down.
    Close,
}

/// What a request asks of the service itself, by its path; none where it is sent elsewhere.
#[tactic(auto, unfolding(crate::specs::Sites::site_call))]
pub fn site_call(raw: &RawRequest) -> Option<SiteCall>
    ensures { result ≡ site_call raw.now }
{
    let (path, _) = split_target(raw.target.as_slice());
    if path == b"/".as_slice() {
        Some(SiteCall::Page)
    } else if path == b"/cluster/close".as_slice() {
        Some(SiteCall::Close)
    } else {
        None
    }
}

// The method of each.
fn site_method(call: SiteCall) -> &'static [u8]
    ensures { result.now ≡ site_method call }
{
    match call {
        SiteCall::Page => b"GET".as_slice(),
        SiteCall::Close => b"POST".as_slice(),
    }
}

/// Whether a request to its path asks it, or the request's first fault. It has no parameter of its
/// own.
#[tactic(auto, unfolding(crate::specs::Sites::site_meaning))]
pub fn read_site(alloc: Global, call: SiteCall, raw: &RawRequest) -> Result<(), HttpFault>
    ensures { UnlessMemory result (site_meaning call raw.now) }
{
    if raw.method.as_slice() != site_method(call) {
        return Err(HttpFault::WrongMethod);
    }
    let (_, query) = split_target(raw.target.as_slice());
    let pairs = read_pairs(alloc, query)?;
    match unfit_name(alloc, Form::Bare, &pairs)? {
        Some(name) => Err(bad_parameter(alloc, name)),
        None => Ok(()),
    }
}
