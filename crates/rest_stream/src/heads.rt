// Heads among the bytes that came.
ghost use Rattle.std.specs.Prelude.{◌≡◌, ◌≤◌, ◌<◌, All, IfErr, IfOk, IfSome, length, take, drop};
ghost use Rattle.httparse.specs.Grammar.{HasNoRequest, MayBecomeRequest, NeverHasRequest};
ghost use Rattle.httparse.specs.Spans.{IsRequestOf, IsRequestWithin};
ghost use Rattle.rest_stream.specs.Heads.{MeansOf};

use httparse::Status;
use httparse::spans::{HeaderSpan, RequestSpans, parse_request};

pub const MAX_HEAD: usize = 16_384;

/// What bytes are as the front of a head.
#[derive(Clone, Copy, Debug)]
pub enum HeadState {
    Whole(RequestSpans),
    Open,
    Bad,
}

/// What so few bytes are as the front of a head. There is room for more fields than they can hold.
pub fn head_state(buf: &[u8], headers: &mut [HeaderSpan]) -> HeadState
    requires short { length buf.now ≤ 16384 }
    requires room { 5462 ≤ length headers.old }
    ensures { MeansOf buf.now headers.new result }
{
    match parse_request(buf, headers) {
        Ok(Status::Complete(spans)) => HeadState::Whole(spans),
        Ok(Status::Partial) => HeadState::Open,
        Err(_) => HeadState::Bad,
    }
}
