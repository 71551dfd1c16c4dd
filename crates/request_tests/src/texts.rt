// What the tests write of an answer.
use std::process::Abort;

pub fn push(rt: &impl Abort, text: &mut String, piece: &str) {
    text.push_str(piece).expect(rt, "memory");
}
