// The topics of a case, and those that an action touches.
ghost use Rattle.goal_terms.specs.PerTopic.{first_topic, second_topic};
ghost use Rattle.load_model.specs.Places.{topic_at};
ghost use Rattle.plan_terms.specs.Belongs.{IsBookOf};
ghost use Rattle.plan_terms.specs.Faults.{topics};
ghost use Rattle.plan_terms.specs.Fits.{fits};
ghost use Rattle.std.specs.Prelude.{◌≡◌, ◌<◌, IfOk, IsTrue, ℕ, length};

use load_model::{Case, LoadBook};
use plan_terms::{Action, Memory, Topic};
use std::alloc::Global;

/// The topics, in the order of their first partitions.
pub fn topics_of(alloc: Global, case: &Case) -> Result<Vec<Topic>, Memory>
    ensures { IfOk result (λ v. v.items ≡ topics case.now.parts) }
{
    let parts = case.parts();
    let mut found = Vec::new(alloc);
    for (place, part) in parts.iter().enumerate() {
        // The first partition of the next topic.
        if case.topic(place) == found.len() {
            found.push(part.topic.copy(alloc)?)?;
        }
    }
    Ok(found)
}

/// The place of the topic of the first partition that an action touches.
pub fn first_topic_place(case: &Case, book: &LoadBook, action: Action) -> usize
    requires belongs { IsBookOf case.now book.now }
    requires applies { IsTrue (fits book.now.lists action) }
    ensures within { result < length (topics case.now.parts) }
    ensures named { topic_at case.now.parts result ≡ first_topic case.now.parts action }
{
    let _lists = book.lists();
    match action {
        Action::Move { part, .. } => case.topic(part as usize),
        Action::Lead { part, .. } => case.topic(part as usize),
        Action::Swap { part, .. } => case.topic(part as usize),
    }
}

/// The place of the topic of the second of them, or of the only one.
pub fn second_topic_place(case: &Case, book: &LoadBook, action: Action) -> usize
    requires belongs { IsBookOf case.now book.now }
    requires applies { IsTrue (fits book.now.lists action) }
    ensures within { result < length (topics case.now.parts) }
    ensures named { topic_at case.now.parts result ≡ second_topic case.now.parts action }
    ensures only { (t : ℕ) → t < length (topics case.now.parts)
        → topic_at case.now.parts t ≡ second_topic case.now.parts action → t ≡ result }
{
    let _lists = book.lists();
    match action {
        Action::Move { part, .. } => case.topic(part as usize),
        Action::Lead { part, .. } => case.topic(part as usize),
        Action::Swap { other, .. } => case.topic(other as usize),
    }
}
