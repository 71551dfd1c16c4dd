// Rests and entries of the passes of a shared book.
use crate::books::{TestBook, book_of, let_go};
use crate::texts::FOUR;
use core_terms::{Event, Reason, Reply};
use turn_book::Turn;

// A mover looks twice before it rests: for work, and while a plan is being made for a job. Another
// pass asks Close between the two, which is all that will ever stir. Were the rest to wait for a
// later stir, it would never end, and nor would the test.
#[test]
fn a_rest_ends_at_what_stirred_between_two_looks(rt: HostRuntime) {
    let Ok((turn, mut pass)) = Turn::<TestBook>::new(
        rt.alloc(),
        book_of(&rt, rt.alloc(), FOUR, &[]),
    ) else {
        panic!(rt; "no turn");
    };
    let mut other = turn.split(&mut pass);
    let work = turn.act(&rt, &mut pass, Event::Take).ok();
    assert!(rt; matches!(work, Some(Reply::Idle(Reason::NoExecution, false))));
    let closed = turn.act(&rt, &mut other, Event::Close).ok();
    assert!(rt; matches!(closed, Some(Reply::Closed)));
    let job = turn.act(&rt, &mut pass, Event::PlanTake).ok();
    assert!(rt; matches!(job, Some(Reply::NoJob(true))));
    turn.rest(&rt, &mut pass);
    turn.join(&mut pass, other);
    let_go(turn.close(pass));
}

// The entry of a pass that was split off and joined again is the only one of the book.
#[test]
fn a_joined_pass_leaves_its_one_entry(rt: HostRuntime) {
    let Ok((turn, mut pass)) = Turn::<TestBook>::new(
        rt.alloc(),
        book_of(&rt, rt.alloc(), FOUR, &[]),
    ) else {
        panic!(rt; "no turn");
    };
    let mut other = turn.split(&mut pass);
    let closed = turn.act(&rt, &mut other, Event::Close).ok();
    assert!(rt; matches!(closed, Some(Reply::Closed)));
    turn.join(&mut pass, other);
    let book = turn.close(pass);
    assert_eq!(rt; book.entries(), 1);
    let_go(book);
}
