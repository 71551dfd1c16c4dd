// One request: what it is told, and its reply.
ghost use Rattle.std.specs.Prelude.{◌≡◌, false, None, IfErr, IfOk};
ghost use Rattle.cc_base.specs.Outside.{HasCause};
ghost use Rattle.core_terms.specs.History.{is_outward};
ghost use Rattle.mover_rounds.specs.Made.{Copies, HasMade, copier_of};
ghost use Rattle.rest_parse.specs.Calls.{meaning};
ghost use Rattle.rest_session.specs.Pieces.{asks_head, sent};
ghost use Rattle.rest_session.specs.Answered.{HasAnswered, IsBlamed, IsReplied, fault_told};
ghost use Rattle.rest_session.specs.Calls.{HasDone, HasHealed, IsAskedOnce, IsCalled, IsDecidedBy, IsInward, IsToldAtOnce};
ghost use Rattle.rest_session.specs.Heard.{HasHeard, IsSiteTold, site_asked};
ghost use Rattle.rest_session.specs.Reviewed.{HasCalled};
ghost use Rattle.rest_parse.specs.Sites.{site_meaning};

use crate::calls::{Asked, asked_by};
use crate::reviewed::told_reviewed;
use crate::site::Site;
use anomaly_detector::{Decision, decide};
use cc_base::{Link, WriteFault, write_link};
use cluster_gate::Copier;
use core_terms::{Event, Reply, StepFault};
use memchr::memmem;
use mover_rounds::{Asker, pump};
use rest_parse::{Routes, SiteCall, read_site, site_call};
use rest_replies::{MEMORY_REPLY, Told, memory_reply_is_a_reply, reply_bytes};
use rest_stream::RawRequest;
use review_board::Reviewer;
use std::alloc::Global;
use std::thread::Threads;

// What ends a head.
const EMPTY_LINE: &[u8] = b"\r\n\r\n";

/// Asks one event that calls nothing outside, so that only want of memory may stand in its way.
pub fn ask_once<X: Asker>(asker: &mut X, event: Event) -> Told
    requires { is_outward event ≡ false }
    ensures since { X.since asker.old asker.new }
    ensures asked { IsAskedOnce (X.known asker.old) (X.known asker.new) event result }
    ensures blamed { IsBlamed (fault_told result) (X.known asker.old).blamed
        (X.known asker.new).blamed }
{
    match asker.ask(event) {
        Ok(reply) => Told::Core(reply),
        Err((fault, _)) => Told::Step(fault),
    }
}

// Asks the fix, where it is one, and says what it is told.
fn heal<X: Asker>(asker: &mut X, decision: Decision) -> Told
    ensures since { X.since asker.old asker.new }
    ensures healed { HasHealed (X.known asker.old) (X.known asker.new) decision result }
    ensures blamed { IsBlamed (fault_told result) (X.known asker.old).blamed
        (X.known asker.new).blamed }
{
    match decision {
        Decision::Fix(cause, ask) => ask_once(asker, Event::Heal(cause, ask)),
        decision => Told::Decided(decision),
    }
}

// What a look calls for that was answered so; or what is told of it, where it shows nothing, or
// there is no memory.
fn decided(
    alloc: Global,
    reply: Reply,
    now: u64,
    alert: u64,
    heal_age: u64,
) -> Result<Decision, Told>
    ensures ok { IfOk result (IsDecidedBy now alert heal_age reply) }
    ensures told { IfErr result (IsToldAtOnce reply) }
{
    let looked = match reply {
        Reply::Looked(looked) => looked,
        reply => return Err(Told::Core(reply)),
    };
    let (since, case, lists) = (looked.since(), looked.case(), looked.lists());
    match decide(alloc, now, alert, heal_age, since, case, lists) {
        Ok(decision) => Ok(decision),
        Err(_) => Err(Told::Step(StepFault::Memory)),
    }
}

// Looks at the lost brokers, and does what is called for.
fn detect<X: Asker>(alloc: Global, asker: &mut X, now: u64, alert: u64, heal_age: u64) -> Told
    ensures since { X.since asker.old asker.new }
    ensures done { (k : Copies) → HasDone (X.known asker.old) (X.known asker.new) k k
        (Asked.Detects now alert heal_age) result }
    ensures blamed { IsBlamed (fault_told result) (X.known asker.old).blamed
        (X.known asker.new).blamed }
{
    let reply = match asker.ask(Event::Look(now)) {
        Ok(reply) => reply,
        Err((fault, _)) => return Told::Step(fault),
    };
    match decided(alloc, reply, now, alert, heal_age) {
        Ok(decision) => heal(asker, decision),
        Err(told) => told,
    }
}

// Looks at the lost brokers, and tells what is called for.
fn look<X: Asker>(alloc: Global, asker: &mut X, now: u64, alert: u64, heal_age: u64) -> Told
    ensures since { X.since asker.old asker.new }
    ensures done { (k : Copies) → HasDone (X.known asker.old) (X.known asker.new) k k
        (Asked.Looks now alert heal_age) result }
    ensures blamed { IsBlamed (fault_told result) (X.known asker.old).blamed
        (X.known asker.new).blamed }
{
    let reply = match asker.ask(Event::Look(now)) {
        Ok(reply) => reply,
        Err((fault, _)) => return Told::Step(fault),
    };
    match decided(alloc, reply, now, alert, heal_age) {
        Ok(decision) => Told::Decided(decision),
        Err(told) => told,
    }
}

/// Does what is asked.
pub fn do_asked<X: Asker, K: Copier, R: Threads + Sync>(
    rt: &R,
    alloc: Global,
    asker: &mut X,
    copier: &mut K,
    asked: Asked,
) -> Told
    requires { IsInward asked }
    ensures since { X.since asker.old asker.new }
    ensures done { HasDone (X.known asker.old) (X.known asker.new)
        (copier_of K.copies K.faults copier.old) (copier_of K.copies K.faults copier.new)
        asked result }
    ensures blamed { IsBlamed (fault_told result) (X.known asker.old).blamed
        (X.known asker.new).blamed }
{
    match asked {
        Asked::Once(event) => ask_once(asker, event),
        Asked::Looks(now, alert, heal) => look(alloc, asker, now, alert, heal),
        Asked::Detects(now, alert, heal) => detect(alloc, asker, now, alert, heal),
        Asked::Rounds(steps) => Told::Pump(pump(rt, alloc, asker, copier, steps)),
    }
}

// Does what a request means, if it means a call, and says what it is told.
fn told_at_once<X: Asker, K: Copier, R: Threads + Sync>(
    rt: &R,
    alloc: Global,
    asker: &mut X,
    copier: &mut K,
    routes: &Routes,
    raw: &RawRequest,
) -> Told
    ensures since { X.since asker.old asker.new }
    ensures called { HasMade (IsCalled (X.known asker.old).rules (X.known asker.new).seen
        (meaning raw.now) result) (X.known asker.old) (X.known asker.new)
        (copier_of K.copies K.faults copier.old) (copier_of K.copies K.faults copier.new) }
    ensures blamed { IsBlamed (fault_told result) (X.known asker.old).blamed
        (X.known asker.new).blamed }
{
    match routes.request_of(alloc, raw) {
        Ok(call) => do_asked(rt, alloc, asker, copier, asked_by(call)),
        Err(fault) => Told::Http(fault),
    }
}

// Does what a request means, at once or, where there is a board, after its review.
fn told_by<X: Asker, V: Reviewer, K: Copier, R: Threads + Sync>(
    rt: &R,
    alloc: Global,
    asker: &mut X,
    reviewer: &mut V,
    copier: &mut K,
    routes: &Routes,
    raw: &RawRequest,
) -> Told
    ensures since { X.since asker.old asker.new }
    ensures since_board { V.since reviewer.old reviewer.new }
    ensures called { HasCalled (X.known asker.old) (X.known asker.new) (V.board reviewer.old)
        (V.board reviewer.new) (copier_of K.copies K.faults copier.old)
        (copier_of K.copies K.faults copier.new) raw.now result }
    ensures blamed { IsBlamed (fault_told result) (X.known asker.old).blamed
        (X.known asker.new).blamed }
{
    if reviewer.reviews() {
        told_reviewed(rt, alloc, asker, reviewer, copier, routes, raw)
    } else {
        told_at_once(rt, alloc, asker, copier, routes, raw)
    }
}

// What a request asks of the service itself, where that is offered.
fn site_asked<D: Site>(site: &D, raw: &RawRequest) -> Option<SiteCall>
    ensures { result ≡ site_asked (D.offers site.now) raw.now }
{
    match site_call(raw) {
        Some(call) if site.offers(call) => Some(call),
        _ => None,
    }
}

// Does what it asks, and says what it is told.
fn told_of_site<D: Site>(alloc: Global, site: &D, call: SiteCall, raw: &RawRequest) -> Told
    ensures told { IsSiteTold call (site_meaning call raw.now) result }
    ensures blameless { fault_told result ≡ None }
{
    match read_site(alloc, call, raw) {
        Ok(()) => match call {
            SiteCall::Page => Told::Page,
            SiteCall::Close => {
                site.shut_down();
                Told::Ending
            }
        },
        Err(fault) => Told::Http(fault),
    }
}

// Does what a request asks of the service itself, or what it means, and says what it is told.
fn told_to<X: Asker, V: Reviewer, K: Copier, D: Site, R: Threads + Sync>(
    rt: &R,
    alloc: Global,
    asker: &mut X,
    reviewer: &mut V,
    copier: &mut K,
    site: &D,
    routes: &Routes,
    raw: &RawRequest,
) -> Told
    ensures since { X.since asker.old asker.new }
    ensures since_board { V.since reviewer.old reviewer.new }
    ensures heard { HasHeard (D.offers site.now) (X.known asker.old) (X.known asker.new)
        (V.board reviewer.old) (V.board reviewer.new) (copier_of K.copies K.faults copier.old)
        (copier_of K.copies K.faults copier.new) raw.now result }
    ensures blamed { IsBlamed (fault_told result) (X.known asker.old).blamed
        (X.known asker.new).blamed }
{
    match site_asked(site, raw) {
        Some(call) => told_of_site(alloc, site, call, raw),
        None => told_by(rt, alloc, asker, reviewer, copier, routes, raw),
    }
}

// Whether a request asks for the head of its reply alone (RFC 9110, section 9.3.2).
fn asks_head(raw: &RawRequest) -> bool
    ensures { result ≡ asks_head raw.now }
{
    raw.method.as_slice() == b"HEAD".as_slice()
}

// What is sent of a reply: its head alone, which an empty line ends, or all of it.
fn sent(reply: &[u8], alone: bool) -> &[u8]
    ensures { result.now ≡ sent alone reply.now }
{
    if !alone {
        return reply;
    }
    match memmem::find_iter(reply, EMPTY_LINE).next() {
        Some(at) => &reply[..at.saturating_add(EMPTY_LINE.len()).min(reply.len())],
        None => reply,
    }
}

/// Writes the reply to what is told, or its head alone. Where there is no memory for it, the reply
/// that says so takes none.
pub fn write_reply<L: Link>(
    alloc: Global,
    link: &mut L,
    told: &Told,
    alone: bool,
) -> Result<(), WriteFault>
    ensures replied { IsReplied alone told.now (L.written link.old) (L.written link.new) result }
    ensures cause { HasCause (L.Sink.faults link.old) (L.Sink.faults link.new) result }
    ensures left { L.left link.new ≡ L.left link.old }
    ensures faults { L.Source.faults link.new ≡ L.Source.faults link.old }
{
    memory_reply_is_a_reply();
    match reply_bytes(alloc, told) {
        Ok(bytes) => write_link(link, sent(&bytes, alone)),
        Err(_) => write_link(link, sent(MEMORY_REPLY, alone)),
    }
}

/// Answers one request.
pub fn answer<X: Asker, V: Reviewer, K: Copier, D: Site, L: Link, R: Threads + Sync>(
    rt: &R,
    alloc: Global,
    asker: &mut X,
    reviewer: &mut V,
    copier: &mut K,
    site: &D,
    routes: &Routes,
    raw: &RawRequest,
    link: &mut L,
) -> Result<(), WriteFault>
    ensures since { X.since asker.old asker.new }
    ensures since_board { V.since reviewer.old reviewer.new }
    ensures answered { HasAnswered (D.offers site.now) (X.known asker.old)
        (X.known asker.new) (V.board reviewer.old) (V.board reviewer.new)
        (copier_of K.copies K.faults copier.old) (copier_of K.copies K.faults copier.new) raw.now
        (L.written link.old) (L.written link.new) result }
    ensures cause { HasCause (L.Sink.faults link.old) (L.Sink.faults link.new) result }
    ensures left { L.left link.new ≡ L.left link.old }
    ensures faults { L.Source.faults link.new ≡ L.Source.faults link.old }
{
    let told = told_to(rt, alloc, asker, reviewer, copier, site, routes, raw);
    write_reply(alloc, link, &told, asks_head(raw))
}
