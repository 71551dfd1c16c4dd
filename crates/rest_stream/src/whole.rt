// All requests of a stream.
ghost use Rattle.std.specs.Prelude.{◌≡◌, ◌≤◌, IfOk, IfSome, Some};
ghost use Rattle.cc_base.specs.Outside.{HasRisen};
ghost use Rattle.rest_stream.specs.Stream.{Requests};
ghost use Rattle.rest_stream.specs.Whole.{ending};
ghost use Rattle.rest_stream.specs.declared.raw.Stop.TheVariants as stop;

use crate::raw::{RawRequest, Stop};
use crate::reader::Reader;
use cc_base::Source;
use plan_terms::Memory;
use std::alloc::Global;

/// The requests of a stream.
#[derive(Drop)]
pub struct Whole {
    pub requests: Vec<RawRequest>,
    /// Why no other follows; nothing behind a request that closes.
    pub stop: Option<Stop>,
}

/// Reads a stream to its last request.
pub fn read_whole<S: Source>(alloc: Global, source: &mut S) -> Result<Whole, Memory>
    ensures requests { IfOk result
        (λ whole. IfSome (S.left source.old)
        (λ stream. Requests 0 stream whole.requests.items (ending whole.stop))) }
    ensures later { S.faults source.old ≤ S.faults source.new }
    ensures fault { IfOk result
        (λ whole. whole.stop ≡ Some stop.ReadFault
        → HasRisen (S.faults source.old) (S.faults source.new)) }
    ensures beside { S.beside source.new ≡ S.beside source.old }
{
    let mut reader = Reader::new(alloc)?;
    let mut requests = Vec::new(alloc);
    loop {
        match reader.next(alloc, source).into_result() {
            Ok(raw) => {
                let closes = raw.closes;
                requests.push(raw)?;
                if closes {
                    return Ok(Whole {
                        requests,
                        stop: None,
                    });
                }
            }
            Err(why) => {
                return Ok(Whole {
                    requests,
                    stop: Some(why),
                });
            }
        }
    }
}
