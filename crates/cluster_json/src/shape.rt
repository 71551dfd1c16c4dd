// Shapes of values, and the members and lists that have them.
ghost use Rattle.std.specs.Prelude.{◌≡◌, ◌≤◌, ◌<◌, IfOk, option_map};
ghost use Rattle.std.specs.List.{All};
ghost use Rattle.serde_json.specs.View.{view, items_view};
ghost use Rattle.cluster_json.specs.Faults.{index_step, under};
ghost use Rattle.cluster_json.specs.Reading.{Gives};
ghost use Rattle.cluster_json.specs.Shapes.{all_at, inside, items_from, list_at, number_at, object_at, optional, required, text_at};

use crate::FileRefusal;
use crate::refusal::{bad_number, in_item, in_member, wrong_shape};
use plan_terms::ListOf;
use serde_json::Value;
use std::alloc::Global;

/// What a value has to look like to be read.
pub trait Shape {
    ghost use Rattle.serde_json.specs.Data.{Data};
    ghost use Rattle.cluster_json.specs.Faults.{Read};

    /// What is read.
    type Out: Drop;

    /// What a value means, or its first fault.
    ghost meaning: { Self → Data → Read Self.Out };

    /// What is known of all that is read.
    ghost Keeps: { Self → Self.Out → Type 0 } = { λ _ _. Unit {0} };

    /// Reads a value.
    fn read(&self, alloc: Global, value: &Value) -> Result<Self::Out, FileRefusal>
        ensures means { Gives (λ x. x) result (meaning self.now (view value.now)) }
        ensures keeps { IfOk result (Keeps self.now) };
}

/// An object.
#[tactic(auto, unfolding(crate::specs::Shapes::object_at))]
pub fn check_object(alloc: Global, value: &Value) -> Result<(), FileRefusal>
    ensures { Gives (λ u. u) result (object_at (view value.now)) }
{
    match value.as_object() {
        Some(_) => Ok(()),
        None => Err(wrong_shape(alloc)),
    }
}

/// A text.
#[tactic(auto, unfolding(crate::specs::Shapes::text_at))]
pub fn read_text(alloc: Global, value: &Value) -> Result<&str, FileRefusal>
    ensures { Gives (λ s. s.now) result (text_at (view value.now)) }
{
    match value.as_str() {
        Some(text) => Ok(text),
        None => Err(wrong_shape(alloc)),
    }
}

/// A list.
#[tactic(auto, unfolding(crate::specs::Shapes::list_at))]
pub fn read_list(alloc: Global, value: &Value) -> Result<&[Value], FileRefusal>
    ensures { Gives (λ v. items_view v.now) result (list_at (view value.now)) }
{
    match value.as_array() {
        Some(values) => Ok(values),
        None => Err(wrong_shape(alloc)),
    }
}

#[tactic(auto, unfolding(crate::specs::Shapes::number_at))]
fn read_number(alloc: Global, value: &Value, least: u64, limit: u64) -> Result<u64, FileRefusal>
    ensures means { Gives (λ n. n) result (number_at least limit (view value.now)) }
    ensures least { IfOk result (λ n. least ≤ n) }
    ensures small { IfOk result (λ n. n < limit) }
{
    let Some(number) = value.as_number() else {
        return Err(wrong_shape(alloc));
    };
    match number.as_u64() {
        Some(n) if least <= n && n < limit => Ok(n),
        _ => Err(bad_number(alloc)),
    }
}

/// A whole number that is at least `least` and below `limit`.
pub struct Whole {
    pub least: u64,
    pub limit: u64,
}

impl Shape for Whole {
    ghost use Rattle.cluster_json.specs.Ranges.{IsWithin};

    type Out = u64;

    ghost meaning = { λ w. number_at w.least w.limit };

    ghost Keeps = { λ w n. IsWithin w.least w.limit n };

    fn read(&self, alloc: Global, value: &Value) -> Result<u64, FileRefusal> {
        read_number(alloc, value, self.least, self.limit)
    }
}

/// The id of a broker or the number of a partition, below 2^31.
pub struct Id;

impl Shape for Id {
    ghost use Rattle.std.specs.Prelude.{◌<◌, ◌^◌};
    ghost use Rattle.cluster_json.specs.Shapes.{id_at};

    type Out = u32;

    ghost meaning = { λ _. id_at };

    ghost Keeps = { λ _ n. n < 2 ^ 31 };

    fn read(&self, alloc: Global, value: &Value) -> Result<u32, FileRefusal> {
        Ok(read_number(alloc, value, 0, 1 << 31)? as u32)
    }
}

/// A text that isn't used.
pub struct Note;

impl Shape for Note {
    ghost use Rattle.cluster_json.specs.Shapes.{note_at};

    type Out = ();

    ghost meaning = { λ _. note_at };

    #[tactic(auto, unfolding(crate::specs::Shapes::note_at))]
    fn read(&self, alloc: Global, value: &Value) -> Result<(), FileRefusal> {
        read_text(alloc, value)?;
        Ok(())
    }
}

fn read_required<S: Shape>(
    alloc: Global,
    value: Option<&Value>,
    shape: &S,
) -> Result<S::Out, FileRefusal>
    ensures means { Gives (λ x. x) result
        (required (S.meaning shape.now) (option_map (λ v. view v.now) value.entry)) }
    ensures keeps { IfOk result (S.Keeps shape.now) }
{
    match value {
        Some(value) => shape.read(alloc, value),
        None => Err(wrong_shape(alloc)),
    }
}

/// A member that has to be there.
pub fn required<S: Shape>(
    alloc: Global,
    object: &Value,
    name: &str,
    shape: &S,
) -> Result<S::Out, FileRefusal>
    ensures means { Gives (λ x. x) result
        (inside name.now (required (S.meaning shape.now)) (view object.now)) }
    ensures keeps { IfOk result (S.Keeps shape.now) }
{
    read_required(alloc, object.get(name), shape).map_err(|e| in_member(alloc, name, e))
}

fn read_optional<S: Shape>(
    alloc: Global,
    value: Option<&Value>,
    shape: &S,
    default: S::Out,
) -> Result<S::Out, FileRefusal>
    requires { S.Keeps shape.now default }
    ensures means { Gives (λ x. x) result
        (optional default (S.meaning shape.now) (option_map (λ v. view v.now) value.entry)) }
    ensures keeps { IfOk result (S.Keeps shape.now) }
{
    match value {
        Some(value) => shape.read(alloc, value),
        None => Ok(default),
    }
}

/// A member that may be absent.
pub fn optional<S: Shape>(
    alloc: Global,
    object: &Value,
    name: &str,
    shape: &S,
    default: S::Out,
) -> Result<S::Out, FileRefusal>
    requires { S.Keeps shape.now default }
    ensures means { Gives (λ x. x) result
        (inside name.now (optional default (S.meaning shape.now)) (view object.now)) }
    ensures keeps { IfOk result (S.Keeps shape.now) }
{
    read_optional(alloc, object.get(name), shape, default).map_err(|e| in_member(alloc, name, e))
}

/// An item of a list.
pub fn item<S: Shape>(
    alloc: Global,
    index: usize,
    value: &Value,
    shape: &S,
) -> Result<S::Out, FileRefusal>
    ensures means { Gives (λ x. x) result
        (under (index_step index) (S.meaning shape.now (view value.now))) }
    ensures keeps { IfOk result (S.Keeps shape.now) }
{
    shape
        .read(alloc, value)
        .map_err(|e| in_item(alloc, index, e))
}

fn items<S: Shape>(alloc: Global, values: &[Value], shape: &S) -> Result<Vec<S::Out>, FileRefusal>
    ensures means { Gives (λ v. v.items) result
        (items_from 0 (S.meaning shape.now) (items_view values.now)) }
    ensures keep { IfOk result (λ v. All (S.Keeps shape.now) v.items) }
{
    let mut all = Vec::new(alloc);
    for (index, value) in values.iter().enumerate() {
        all.push(item(alloc, index, value, shape)?)?;
    }
    Ok(all)
}

/// A list whose items have a shape.
#[derive(Drop)]
pub struct Each<S>(pub S);

impl<S: Shape> Shape for Each<S> {
    ghost use Rattle.std.specs.List.{All};
    ghost use Rattle.cluster_json.specs.Shapes.{all_at};

    type Out = ListOf<S::Out>;

    ghost meaning = { λ each. all_at (S.meaning each.0) };

    ghost Keeps = { λ each xs. All (S.Keeps each.0) xs };

    fn read(&self, alloc: Global, value: &Value) -> Result<ListOf<S::Out>, FileRefusal> {
        let values = read_list(alloc, value)?;
        Ok(ListOf::new(items(alloc, values, &self.0)?))
    }
}
