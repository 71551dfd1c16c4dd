// A request out of the bytes that came.
ghost use Rattle.std.specs.Prelude.{◌≡◌, ◌≤◌, ◌<◌, ◌+◌, ◌++◌, ◌⊎◌, List, ℕ, codes, drop, length, map, take, IfErr, IfOk, IfSome, IsSome, IsTrue, OnOk};
ghost use Rattle.httparse.specs.Grammar.{RequestHead};
ghost use Rattle.httparse.specs.Spans.{IsHeaderWithin, IsRequestAt, IsRequestWithin, header_bytes};
ghost use Rattle.rest_stream.specs.Fields.{value_in};
ghost use Rattle.cc_base.specs.Outside.{after};
ghost use Rattle.rest_stream.specs.Heads.{IsFound, IsFramed, parts, request_with};
ghost use Rattle.rest_stream.specs.Stream.{AlwaysStopsBy, HasReadCause, HoldsHead, IsOutside, IsRequest, ReadsNothing, StopsBy, stream_of};
ghost use Rattle.rest_stream.specs.declared.raw.RawRequest.{RawRequest};
ghost use Rattle.rest_stream.specs.declared.raw.Stop.TheVariants as stop;
ghost use Rattle.std.specs.List.{All};

use crate::bytes::Bytes;
use crate::fields::{asks_to_close, framing, value_of};
use crate::inbox::{Inbox, take_front};
use crate::raw::{RawRequest, Stop};
use crate::search::{find_head, read_to, window};
use cc_base::Source;
use httparse::spans::{HeaderSpan, RequestSpans};
use std::alloc::{AllocError, Global};

/// What a request keeps of its head.
#[derive(Drop)]
pub struct Head {
    pub method: Bytes,
    pub target: Bytes,
    pub key: Option<Bytes>,
    pub closes: bool,
}

/// A head with its length, and the length of the body behind it.
#[derive(Drop)]
pub struct Framed {
    pub head: Head,
    pub len: usize,
    pub size: usize,
}

// The value of the first field `User-Task-ID`.
fn key_of(alloc: Global, front: &[u8], headers: &[HeaderSpan]) -> Result<Option<Bytes>, AllocError>
    requires { All (IsHeaderWithin (length front.now)) headers.now }
    ensures { IfOk result
        (λ k. k ≡ value_in (codes "user-task-id") (map (header_bytes front.now) headers.now)) }
{
    match value_of(front, headers, "user-task-id") {
        Some(value) => Ok(Some(Bytes::of(alloc, value)?)),
        None => Ok(None),
    }
}

// What is kept of the head with these fields, and these other parts.
fn head_of(
    alloc: Global,
    front: &[u8],
    headers: &[HeaderSpan],
    spans: RequestSpans,
) -> Result<Head, AllocError>
    requires within { IsRequestWithin front.now headers.now spans }
    ensures { IfOk result
        (λ kept. (h : RequestHead) → IsRequestAt front.now headers.now spans h → kept ≡ parts h) }
{
    let fields = &headers[..spans.headers];
    let method = Bytes::of(alloc, spans.method.of(front))?;
    let target = Bytes::of(alloc, spans.path.of(front))?;
    let key = key_of(alloc, front, fields)?;
    let closes = spans.version == 0 || asks_to_close(front, fields);
    Ok(Head {
        method,
        target,
        key,
        closes,
    })
}

// Reads until a whole head is there, and says what it frames. Nothing of the stream is used up.
fn framed_head<S: Source>(
    alloc: Global,
    inbox: &mut Inbox,
    headers: &mut [HeaderSpan],
    source: &mut S,
) -> Result<Framed, Stop>
    // There is room for all headers that a head can have.
    requires room { 5462 ≤ length headers.old }
    // The first head of the stream is framed so.
    ensures framed { IfOk result
        (λ f. IfSome (stream_of inbox.old.held.items (S.left source.old))
        (λ stream. IsFramed stream f)) }
    ensures len { IfOk result (λ f. f.len ≤ 16384) }
    ensures size { IfOk result (λ f. f.size ≤ 1048576) }
    // So are the bytes that are held now. Where these hold it already, nothing is read.
    ensures held { IfOk result
        (λ f. (more : List ℕ) → IsFramed (inbox.new.held.items ++ more) f) }
    ensures unread { HoldsHead inbox.old.held.items
        → ReadsNothing inbox.old.held.items inbox.new.held.items (S.left source.old)
        (S.left source.new) }
    // Nothing is used up.
    ensures stream { OnOk result
        (stream_of inbox.new.held.items (S.left source.new)
        ≡ stream_of inbox.old.held.items (S.left source.old)) }
    // Or the stream stops here, for that reason.
    ensures why { IfErr result
        (λ e. IfSome (stream_of inbox.old.held.items (S.left source.old))
        (λ stream. StopsBy stream e)) }
    ensures cause { HasReadCause (S.faults source.old) (S.faults source.new) result }
    ensures beside { S.beside source.new ≡ S.beside source.old }
{
    let spans = find_head(inbox, headers, source)?;
    framed_by_spans(alloc, &inbox.held, headers, spans)
}

// What the head with these parts frames.
fn framed_by_spans(
    alloc: Global,
    held: &[u8],
    headers: &[HeaderSpan],
    spans: RequestSpans,
) -> Result<Framed, Stop>
    requires found { IsFound held.now headers.now spans }
    ensures framed { IfOk result (λ f. (more : List ℕ) → IsFramed (held.now ++ more) f) }
    ensures len { IfOk result (λ f. f.len ≤ 16384) }
    ensures size { IfOk result (λ f. f.size ≤ 1048576) }
    ensures why { IfErr result (AlwaysStopsBy held.now) }
    ensures inside { ¬ (result ≡ Err stop.ReadFault) }
{
    let front = window(held);
    let size = framing(front, &headers[..spans.headers])?;
    let head = head_of(alloc, front, headers, spans)?;
    Ok(Framed {
        head,
        len: spans.len,
        size,
    })
}

// Reads the body behind a head of this length, and uses up both.
fn take_body<S: Source>(
    alloc: Global,
    inbox: &mut Inbox,
    source: &mut S,
    len: usize,
    size: usize,
) -> Result<Bytes, Stop>
    // Lengths that a head can have.
    requires len { len ≤ 16384 }
    requires size { size ≤ 1048576 }
    // The body is what stands behind the head.
    ensures enough { IfOk result
        (λ body. IfSome (stream_of inbox.old.held.items (S.left source.old))
        (λ stream. len + size ≤ length stream)) }
    ensures body { IfOk result
        (λ body. IfSome (stream_of inbox.old.held.items (S.left source.old))
        (λ stream. body ≡ take size (drop len stream))) }
    // Where both are held, nothing is read.
    ensures unread { len + size ≤ length inbox.old.held.items
        → S.left source.new ≡ S.left source.old }
    // Both are used up.
    ensures stream { OnOk result
        (stream_of inbox.new.held.items (S.left source.new)
        ≡ after (len + size) (stream_of inbox.old.held.items (S.left source.old))) }
    // Or the stream is cut, or the source or memory failed.
    ensures cut { result ≡ Err stop.Truncated
        → IfSome (stream_of inbox.old.held.items (S.left source.old))
        (λ stream. length stream < len + size) }
    ensures why { IfErr result (λ e. (e ≡ stop.Truncated) ⊎ IsOutside e) }
    ensures cause { HasReadCause (S.faults source.old) (S.faults source.new) result }
    ensures beside { S.beside source.new ≡ S.beside source.old }
{
    read_to(inbox, source, len + size)?;
    Ok(take_front(alloc, &mut inbox.held, len, size)?)
}

// The request with what is kept of its head, and with its body.
fn request_with(head: Head, body: Bytes, is_last: bool) -> RawRequest
    ensures { result ≡ request_with head body is_last }
{
    RawRequest {
        method: head.method,
        target: head.target,
        key: head.key,
        closes: head.closes || is_last,
        body,
    }
}

/// Takes the next request off the stream.
pub fn take_request<S: Source>(
    alloc: Global,
    inbox: &mut Inbox,
    headers: &mut [HeaderSpan],
    source: &mut S,
    is_last: bool,
) -> Result<RawRequest, Stop>
    // Room for the fields of the longest head.
    requires room { 5462 ≤ length headers.old }
    // The request, and what is left of the stream.
    ensures taken { IfOk result
        (λ raw. IfSome (stream_of inbox.old.held.items (S.left source.old))
        (λ stream. IfSome (stream_of inbox.new.held.items (S.left source.new))
        (IsRequest is_last stream raw))) }
    ensures last { IfOk result (λ raw. IsTrue is_last → IsTrue raw.closes) }
    ensures told { OnOk result
        (IsSome (stream_of inbox.old.held.items (S.left source.old))
        → IsSome (stream_of inbox.new.held.items (S.left source.new))) }
    // Where the bytes that are held have it whole, nothing is read.
    ensures unread { (raw : RawRequest) (rest : List ℕ)
        → IsRequest is_last inbox.old.held.items raw rest → S.left source.new ≡ S.left source.old }
    // Why there is none.
    ensures why { IfErr result
        (λ e. IfSome (stream_of inbox.old.held.items (S.left source.old))
        (λ stream. StopsBy stream e)) }
    ensures cause { HasReadCause (S.faults source.old) (S.faults source.new) result }
    // Nothing else changes.
    ensures beside { S.beside source.new ≡ S.beside source.old }
{
    let Framed { head, len, size } = framed_head(alloc, inbox, headers, source)?;
    let body = take_body(alloc, inbox, source, len, size)?;
    Ok(request_with(head, body, is_last))
}
