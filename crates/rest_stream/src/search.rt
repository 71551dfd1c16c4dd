// The search for a head, and for the body behind it.
ghost use Rattle.std.specs.Prelude.{◌≡◌, ◌≤◌, ◌<◌, ◌⊎◌, length, IfErr, IfOk, IfSome, OnOk, IsTrue, None};
ghost use Rattle.rest_stream.specs.Heads.{IsFound};
ghost use Rattle.rest_stream.specs.Stream.{AlwaysStopsBy, HasReadCause, HoldsHead, IsOpenHead, IsOutside, ReadsNothing, StopsBy, stream_of, window};
ghost use Rattle.rest_stream.specs.declared.raw.Stop.TheVariants as stop;

use crate::heads::{HeadState, MAX_HEAD, head_state};
use crate::inbox::{Inbox, fill};
use crate::raw::Stop;
use cc_base::Source;
use httparse::spans::{HeaderSpan, RequestSpans};

/// The bytes in which a head is looked for.
pub fn window(held: &[u8]) -> &[u8]
    ensures value { result.now ≡ window held.now }
    ensures short { length result.now ≤ 16384 }
{
    if held.len() > MAX_HEAD {
        &held[..MAX_HEAD]
    } else {
        held
    }
}

// The head that the bytes begin with, if they hold a whole one.
fn try_head(held: &[u8], headers: &mut [HeaderSpan]) -> Result<Option<RequestSpans>, Stop>
    requires room { 5462 ≤ length headers.old }
    ensures found { IfOk result (λ o. IfSome o (IsFound held.now headers.new)) }
    ensures few { result ≡ Ok None → length held.now < 16384 }
    ensures goes_on { result ≡ Ok None → IsOpenHead held.now }
    ensures why { IfErr result (AlwaysStopsBy held.now) }
    ensures inside { ¬ (result ≡ Err stop.ReadFault) }
{
    match head_state(window(held), headers) {
        HeadState::Whole(spans) => Ok(Some(spans)),
        HeadState::Open if held.len() >= MAX_HEAD => Err(Stop::HeadTooLong),
        HeadState::Open => Ok(None),
        HeadState::Bad => Err(Stop::BadHead),
    }
}

// The head that the last bytes of the input begin with.
fn last_head(held: &[u8], headers: &mut [HeaderSpan]) -> Result<RequestSpans, Stop>
    requires room { 5462 ≤ length headers.old }
    ensures found { IfOk result (IsFound held.now headers.new) }
    ensures why { IfErr result (StopsBy held.now) }
    ensures inside { ¬ (result ≡ Err stop.ReadFault) }
{
    if held.is_empty() {
        return Err(Stop::End);
    }
    try_head(held, headers)?.ok_or(Stop::Truncated)
}

// The bytes before the line end that these bytes end with.
fn before_line_end(bytes: &[u8]) -> Option<&[u8]> {
    match bytes {
        [front @ .., b'\r', b'\n'] => Some(front),
        [front @ .., b'\n'] => Some(front),
        _ => None,
    }
}

// Whether these bytes end with a line that isn't empty, and then an empty one.
fn ends_with_empty_line(bytes: &[u8]) -> bool {
    match before_line_end(bytes).and_then(before_line_end) {
        Some([.., last]) => *last != b'\n',
        _ => false,
    }
}

// Whether a head may end among the bytes from `seen` on.
fn may_end(held: &[u8], seen: usize) -> bool {
    for at in seen..held.len() {
        if held[at] == b'\n' && ends_with_empty_line(&held[..at + 1]) {
            return true;
        }
    }
    false
}

// Whether it is time to look for a head: one may end among the bytes from `seen` on, as many bytes
// came as had at the last look, or no more bytes may come. A head takes few looks by this, however
// its bytes come.
fn is_due(held: &[u8], seen: usize, looked: usize) -> bool
    ensures full { 16384 ≤ length held.now → IsTrue result }
    ensures first { looked ≡ 0 → IsTrue result }
{
    held.len() >= MAX_HEAD || held.len() / 2 >= looked || may_end(held, seen)
}

// Looks for a head if it is time, and else reads once. Answers nothing where more bytes came.
fn look_or_read<S: Source>(
    inbox: &mut Inbox,
    headers: &mut [HeaderSpan],
    source: &mut S,
    is_due: bool,
) -> Result<Option<RequestSpans>, Stop>
    // There is room for all headers that a head can have, and a look at a full inbox is due.
    requires room { 5462 ≤ length headers.old }
    requires due { 16384 ≤ length inbox.old.held.items → IsTrue is_due }
    // A head that was found stands in front.
    ensures found { IfOk result (λ o. IfSome o (IsFound inbox.new.held.items headers.new)) }
    // Nothing is used up.
    ensures stream { OnOk result
        (stream_of inbox.new.held.items (S.left source.new)
        ≡ stream_of inbox.old.held.items (S.left source.old)) }
    // Without one, more is held than before.
    ensures short { result ≡ Ok None → length inbox.old.held.items < 16384 }
    ensures longer { result ≡ Ok None → length inbox.old.held.items < length inbox.new.held.items }
    // Where a whole head is held, nothing is read.
    ensures unread { IsTrue is_due → HoldsHead inbox.old.held.items
        → ReadsNothing inbox.old.held.items inbox.new.held.items (S.left source.old)
        (S.left source.new) }
    // Or the stream stops here, for that reason.
    ensures why { IfErr result
        (λ e. IfSome (stream_of inbox.old.held.items (S.left source.old))
        (λ stream. StopsBy stream e)) }
    ensures cause { HasReadCause (S.faults source.old) (S.faults source.new) result }
    ensures beside { S.beside source.new ≡ S.beside source.old }
{
    if is_due {
        let found = try_head(&inbox.held, headers)?;
        if found.is_some() {
            return Ok(found);
        }
    }
    match fill(inbox, source)? {
        0 => Ok(Some(last_head(&inbox.held, headers)?)),
        _ => Ok(None),
    }
}

/// Reads until the bytes begin with a whole head.
pub fn find_head<S: Source>(
    inbox: &mut Inbox,
    headers: &mut [HeaderSpan],
    source: &mut S,
) -> Result<RequestSpans, Stop>
    requires room { 5462 ≤ length headers.old }
    ensures found { IfOk result (IsFound inbox.new.held.items headers.new) }
    // Where one is held already, nothing is read.
    ensures unread { HoldsHead inbox.old.held.items
        → ReadsNothing inbox.old.held.items inbox.new.held.items (S.left source.old)
        (S.left source.new) }
    ensures stream { OnOk result
        (stream_of inbox.new.held.items (S.left source.new)
        ≡ stream_of inbox.old.held.items (S.left source.old)) }
    ensures why { IfErr result
        (λ e. IfSome (stream_of inbox.old.held.items (S.left source.old))
        (λ stream. StopsBy stream e)) }
    ensures cause { HasReadCause (S.faults source.old) (S.faults source.new) result }
    ensures beside { S.beside source.new ≡ S.beside source.old }
{
    let mut seen = 0;
    let mut looked = 0;
    loop {
        let due = is_due(&inbox.held, seen, looked);
        seen = inbox.held.len();
        if due {
            looked = seen;
        }
        if let Some(spans) = look_or_read(inbox, headers, source, due)? {
            return Ok(spans);
        }
    }
}

/// Reads until so many bytes are there.
pub fn read_to<S: Source>(inbox: &mut Inbox, source: &mut S, count: usize) -> Result<(), Stop>
    ensures enough { OnOk result (count ≤ length inbox.new.held.items) }
    // Where they are there already, nothing is read.
    ensures unread { count ≤ length inbox.old.held.items
        → ReadsNothing inbox.old.held.items inbox.new.held.items (S.left source.old)
        (S.left source.new) }
    ensures stream { OnOk result
        (stream_of inbox.new.held.items (S.left source.new)
        ≡ stream_of inbox.old.held.items (S.left source.old)) }
    ensures cut { result ≡ Err stop.Truncated
        → IfSome (stream_of inbox.old.held.items (S.left source.old))
        (λ stream. length stream < count) }
    ensures why { IfErr result (λ e. (e ≡ stop.Truncated) ⊎ IsOutside e) }
    ensures cause { HasReadCause (S.faults source.old) (S.faults source.new) result }
    ensures beside { S.beside source.new ≡ S.beside source.old }
{
    while inbox.held.len() < count {
        if fill(inbox, source)? == 0 {
            return Err(Stop::Truncated);
        }
    }
    Ok(())
}
