// What a reader of requests answers.
ghost use Rattle.std.specs.Prelude.{◌≡◌, Some, None};
ghost use Rattle.rest_stream.specs.Answers.{IsOutcome, answer, stop_of};

use crate::bytes::Bytes;
use std::alloc::AllocError;
use thiserror::Error;

/// A request as it came.
#[derive(Drop)]
pub struct RawRequest {
    /// The method, as `GET`.
    pub method: Bytes,
    /// The path and the query, encoded.
    pub target: Bytes,
    /// The value of the first field `User-Task-ID`.
    pub key: Option<Bytes>,
    /// Whether the link ends behind it: it is of HTTP/1.0, a `Connection` field has the value
    /// `close`, or it is the 2^48-th.
    pub closes: bool,
    /// As many bytes as `Content-Length` says, at most 1,048,576; none without that field.
    pub body: Bytes,
}

/// Why a stream has no further request.
#[derive(Clone, Copy, Debug, PartialEq, Eq, Error)]
pub enum Stop {
    /// The input ended between requests.
    #[error("the input ended")]
    End,
    /// The input ended inside a request.
    #[error("the input ended inside a request")]
    Truncated,
    /// No head begins with what came, or the head has more than 64 fields.
    #[error("bad head")]
    BadHead,
    /// A `Content-Length` isn't 1 to 19 digits, or two of them differ.
    #[error("bad length")]
    BadLength,
    /// The first 16,384 bytes hold no whole head.
    #[error("head too long")]
    HeadTooLong,
    /// The body is longer than 1,048,576 bytes.
    #[error("body too long")]
    BodyTooLong,
    /// There is a `Transfer-Encoding`.
    #[error("transfer encoding is not taken")]
    NoChunked,
    /// A read failed.
    #[error("read fault")]
    ReadFault,
    /// Want of memory.
    #[error("want of memory")]
    Memory,
}

impl From<AllocError> for Stop {
    ghost use Rattle.rest_stream.specs.declared.raw.Stop.TheVariants as stop;

    ghost from_gives = { λ _ e. e ≡ stop.Memory };

    fn from(_: AllocError) -> Self {
        Stop::Memory
    }
}

/// The next request of a stream, or why there is none, as `Stop` says.
#[derive(Drop)]
pub enum Next {
    Request(RawRequest),
    End,
    Truncated,
    BadHead,
    BadLength,
    HeadTooLong,
    BodyTooLong,
    NoChunked,
    ReadFault,
    Memory,
}

impl Stop {
    /// The answer that says so.
    pub fn answer(self) -> Next
        ensures is { result ≡ answer self }
        ensures stop { stop_of result ≡ Some self }
    {
        match self {
            Stop::End => Next::End,
            Stop::Truncated => Next::Truncated,
            Stop::BadHead => Next::BadHead,
            Stop::BadLength => Next::BadLength,
            Stop::HeadTooLong => Next::HeadTooLong,
            Stop::BodyTooLong => Next::BodyTooLong,
            Stop::NoChunked => Next::NoChunked,
            Stop::ReadFault => Next::ReadFault,
            Stop::Memory => Next::Memory,
        }
    }
}

impl Next {
    /// The request, or why there is none.
    pub fn into_result(self) -> Result<RawRequest, Stop>
        ensures { IsOutcome self result }
    {
        match self {
            Next::Request(raw) => Ok(raw),
            Next::End => Err(Stop::End),
            Next::Truncated => Err(Stop::Truncated),
            Next::BadHead => Err(Stop::BadHead),
            Next::BadLength => Err(Stop::BadLength),
            Next::HeadTooLong => Err(Stop::HeadTooLong),
            Next::BodyTooLong => Err(Stop::BodyTooLong),
            Next::NoChunked => Err(Stop::NoChunked),
            Next::ReadFault => Err(Stop::ReadFault),
            Next::Memory => Err(Stop::Memory),
        }
    }
}
