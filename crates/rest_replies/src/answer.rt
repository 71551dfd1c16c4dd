// A reply before it is written.
ghost use Rattle.serde_json.specs.View.{view};
ghost use Rattle.rest_replies.specs.Plain.{IsPlain};

use crate::texts::Code;
use serde_json::Value;
use uuid::Uuid;

/// A reply before it is written: its code, the user task that it carries, and its body.
#[derive(Drop)]
pub struct Answer {
    pub code: Code,
    pub task: Option<Uuid>,
    pub body: Value,
    ghost plain: { IsPlain (view body) },
}
