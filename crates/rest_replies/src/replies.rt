// The bytes of replies.
ghost use Rattle.std.specs.Prelude.{◌≡◌, Some, IfOk, IfSome};
ghost use Rattle.rest_replies.specs.Answers.{ReadsAs, answer_of, answer_seen, bytes_of, reply_of};
ghost use Rattle.rest_replies.specs.Texts.{page_text};

use crate::answer::Answer;
use crate::answers::answer_of;
use crate::page::PAGE;
use crate::texts::{head_text, page_head};
use crate::told::Told;
use plan_terms::Memory;
use std::alloc::Global;

/// The reply where memory ran out. It takes none to write.
pub const MEMORY_REPLY: &[u8] =
    b"HTTP/1.1 503 Service Unavailable\r\nContent-Type: application/json\r\nContent-Length: 45\r\n\r\n{\"errorMessage\":\"want of memory\",\"version\":1}";

// The bytes of a reply.
fn written(alloc: Global, answer: &Answer) -> Result<Vec<u8>, Memory>
    ensures bytes { IfOk result (λ v. v.items ≡ bytes_of (Some (answer_seen answer.now))) }
    ensures reads { IfOk result (λ v. ReadsAs v.items (answer_seen answer.now)) }
{
    let body = answer.body.to_vec(alloc)?;
    let mut reply = head_text(alloc, answer.code, answer.task, body.len())?.into_bytes();
    reply.extend_from_slice(&body)?;
    Ok(reply)
}

// The bytes of the page.
#[tactic(auto, unfolding(crate::specs::Texts::page_text))]
fn page_bytes(alloc: Global) -> Result<Vec<u8>, Memory>
    ensures bytes { IfOk result (λ v. v.items ≡ page_text) }
{
    let mut reply = page_head(alloc, PAGE.len())?.into_bytes();
    reply.extend_from_slice(PAGE.as_bytes())?;
    Ok(reply)
}

/// The bytes of the reply to what is told; none where nothing is to be written: behind the end of a
/// stream, behind a read that failed or that had no memory, for what only planners and movers are
/// answered, and for a request that a board gave out, which is answered as what it asks.
pub fn reply_bytes(alloc: Global, told: &Told) -> Result<Vec<u8>, Memory>
    ensures bytes { IfOk result (λ v. v.items ≡ reply_of told.now) }
    ensures reads { IfOk result (λ v. IfSome (answer_of told.now) (ReadsAs v.items)) }
{
    if let Told::Page = told {
        return page_bytes(alloc);
    }
    match answer_of(alloc, told)? {
        Some(answer) => written(alloc, &answer),
        None => Ok(Vec::new(alloc)),
    }
}
