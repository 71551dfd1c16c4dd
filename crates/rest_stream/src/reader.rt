// The reader of a stream of requests.
ghost use Rattle.std.specs.Prelude.{◌≡◌, ◌≤◌, ◌+◌, ◌^◌, min, ℕ, List, [], IfOk, IfSome, IsNone, IsSome, IsTrue, None, Some};
ghost use Rattle.rest_stream.specs.Answers.{IfRequest, stop_of};
ghost use Rattle.cc_base.specs.Outside.{HasRisen};
ghost use Rattle.rest_stream.specs.declared.raw.RawRequest.{RawRequest};
ghost use Rattle.rest_stream.specs.declared.raw.Stop.TheVariants as stop;
ghost use Rattle.rest_stream.specs.Reading.{Progress};
ghost use Rattle.rest_stream.specs.Stream.{IsRequest, StopsBy, is_last, stream_of};

use crate::inbox::Inbox;
use crate::raw::{Next, Stop};
use crate::request::take_request;
use cc_base::Source;
use httparse::spans::{EMPTY_HEADER_SPAN, HeaderSpan};
use plan_terms::Memory;
use std::alloc::Global;
use std::marker::Model;

// More fields than a head of 16,384 bytes can have: each takes three bytes.
const ROOM: usize = 5462;

// The 2^48-th request of a stream closes it.
const MOST: u64 = 1 << 48;

/// Reads the requests of a stream, one after the other (RFC 9112): a head of at most 16,384 bytes
/// and 64 fields, and as many bytes behind it as its `Content-Length` says.
///
/// How the reads cut the stream makes no difference. A request is given as soon as its last byte
/// came. A head that can't be mended is found at an empty line, where as many bytes came as had at
/// the last look, at 16,384 bytes, or at the input's end.
#[derive(Drop)]
pub struct Reader {
    inbox: Inbox,
    headers: Vec<HeaderSpan>,
    given: u64,
    ended: Option<Stop>,
}

impl Model for Reader {
    ghost use Rattle.std.specs.Prelude.{◌≤◌, ◌^◌, length};
    ghost use Rattle.rest_stream.specs.Reading.{Progress};

    ghost Value = { Progress };

    ghost view = { λ r. record { held = r.inbox.held.items; given = r.given; ended = r.ended } };

    ghost invariant = { λ r. (5462 ≤ length r.headers.items) × (r.given ≤ 2 ^ 48) };
}

impl Reader {
    /// A reader of a stream from its first byte on.
    pub fn new(alloc: Global) -> Result<Reader, Memory>
        ensures { IfOk result (λ r. r ≡ record { held = []; given = 0; ended = None }) }
    {
        Ok(Reader {
            inbox: Inbox::new(alloc)?,
            headers: vec![in alloc; EMPTY_HEADER_SPAN; ROOM]?,
            given: 0,
            ended: None,
        })
    }

    /// The next request, or why there is none. What follows that answer is the same answer, and
    /// reads nothing.
    pub fn next<S: Source>(&mut self, alloc: Global, source: &mut S) -> Next
        // an open reader: the stream begins with the request, or that is why it has none
        ensures request { IsNone self.old.ended
            → IfRequest result
            (λ raw. IfSome (stream_of self.old.held (S.left source.old))
            (λ stream. IfSome (stream_of self.new.held (S.left source.new))
            (IsRequest (is_last self.old.given) stream raw))) }
        ensures told { IsNone self.old.ended → IsNone (stop_of result)
            → IsSome (stream_of self.old.held (S.left source.old))
            → IsSome (stream_of self.new.held (S.left source.new)) }
        ensures stopped { IsNone self.old.ended
            → IfSome (stop_of result)
            (λ why. IfSome (stream_of self.old.held (S.left source.old))
            (λ stream. StopsBy stream why)) }
        ensures ended { IsNone self.old.ended → self.new.ended ≡ stop_of result }
        ensures last { IsNone self.old.ended
            → IfRequest result (λ raw. 2 ^ 48 ≤ self.old.given + 1 → IsTrue raw.closes) }
        ensures counts { IsNone self.old.ended → IsNone (stop_of result)
            → self.new.given ≡ min (self.old.given + 1) (2 ^ 48) }

        // where the bytes that came have a request whole, nothing is read
        ensures unread { IsNone self.old.ended → (raw : RawRequest) (rest : List ℕ)
            → IsRequest (is_last self.old.given) self.old.held raw rest
            → S.left source.new ≡ S.left source.old }

        // one that has ended
        ensures again { IfSome self.old.ended (λ why. stop_of result ≡ Some why) }
        ensures kept { IsSome self.old.ended → self.new ≡ self.old }
        ensures left { IsSome self.old.ended → S.left source.new ≡ S.left source.old }

        // the source
        ensures later { S.faults source.old ≤ S.faults source.new }
        ensures fault { IsNone self.old.ended → stop_of result ≡ Some stop.ReadFault
            → HasRisen (S.faults source.old) (S.faults source.new) }
        ensures unfailed { ¬ (stop_of result ≡ Some stop.ReadFault)
            → S.faults source.new ≡ S.faults source.old }
        ensures beside { S.beside source.new ≡ S.beside source.old }
    {
        if let Some(why) = self.ended {
            return why.answer();
        }
        let is_last = self.given + 1 >= MOST;
        match take_request(alloc, &mut self.inbox, &mut self.headers, source, is_last) {
            Ok(raw) => {
                self.given = (self.given + 1).min(MOST);
                Next::Request(raw)
            }
            Err(why) => {
                self.ended = Some(why);
                why.answer()
            }
        }
    }
}
