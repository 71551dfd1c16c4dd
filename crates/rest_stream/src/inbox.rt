// The bytes that came.
ghost use Rattle.std.specs.Prelude.{◌≡◌, ◌<◌, ◌≤◌, ◌+◌, ◌^◌, [], drop, length, take, IfErr, IfOk, IfSome, OnOk};
ghost use Rattle.rest_stream.specs.Stream.{HasReadCause, IsOutside, stream_of};

use crate::bytes::Bytes;
use crate::raw::Stop;
use cc_base::{ReadFault, Source, read_some};
use std::alloc::{AllocError, Global};
use std::mem;

// How many bytes are asked of the source at a time.
const PIECE: usize = 4096;

/// The bytes that came and that no request has had yet, and room for the next ones.
#[derive(Drop)]
pub struct Inbox {
    pub held: Vec<u8>,
    pub piece: Vec<u8>,
    ghost some: { 0 < length piece.items },
}

impl Inbox {
    /// No bytes.
    pub fn new(alloc: Global) -> Result<Inbox, AllocError>
        ensures { IfOk result (λ inbox. inbox.held.items ≡ []) }
    {
        Ok(Inbox {
            held: Vec::new(alloc),
            piece: vec![in alloc; 0; PIECE]?,
        })
    }
}

// Reads once, and adds what came. Answers how many bytes: 0 at the end of the input.
pub fn fill<S: Source>(inbox: &mut Inbox, source: &mut S) -> Result<usize, Stop>
    // What is held and what is left are the same stream.
    ensures stream { OnOk result
        (stream_of inbox.new.held.items (S.left source.new)
        ≡ stream_of inbox.old.held.items (S.left source.old)) }
    // What came is held. Nothing comes only at the end.
    ensures longer { IfOk result
        (λ n. length inbox.new.held.items ≡ length inbox.old.held.items + n) }
    ensures same { result ≡ Ok 0 → inbox.new.held.items ≡ inbox.old.held.items }
    ensures end { result ≡ Ok 0 → IfSome (S.left source.old) (λ told. told ≡ []) }
    // It stops for the source or for memory.
    ensures cause { HasReadCause (S.faults source.old) (S.faults source.new) result }
    ensures why { IfErr result IsOutside }
    ensures beside { S.beside source.new ≡ S.beside source.old }
{
    match read_some(source, &mut inbox.piece) {
        Ok(n) => {
            inbox.held.extend_from_slice(&inbox.piece[..n])?;
            Ok(n)
        }
        Err(ReadFault) => Err(Stop::ReadFault),
    }
}

// Hands out the first bytes, as many as a head and the body behind it have, and keeps the others.
// The body isn't copied.
pub fn take_front(
    alloc: Global,
    held: &mut Vec<u8>,
    len: usize,
    size: usize,
) -> Result<Bytes, AllocError>
    requires room { len + size ≤ 2 ^ 32 }
    requires there { len + size ≤ length held.old.items }
    ensures body { IfOk result (λ b. b ≡ take size (drop len held.old.items)) }
    ensures kept { OnOk result (held.new.items ≡ drop (len + size) held.old.items) }
{
    let behind = held[len + size..].to_vec(alloc)?;
    let mut front = mem::replace(held, behind);
    front.truncate(len + size);
    Ok(Bytes::behind(front, len))
}
