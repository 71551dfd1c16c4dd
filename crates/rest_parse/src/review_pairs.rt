// The parameters of requests to a review board.
ghost use Rattle.std.specs.Prelude.{◌≡◌, [], All, IfOk, IfSome, map, option_map};
ghost use Rattle.rest_parse.specs.ReviewPairs.{IsReviewId, fits, is_free, missing_list, overlap, repeating_list, repeats, review_id_in, review_id_of, review_ids_at, review_ids_of, review_list_of, unfit_name};

use crate::parameters::{Parameter, parameter_of};
use crate::query::{Pair, has_name, value_of};
use plan_terms::{pieces, read_whole};
use std::alloc::{AllocError, Global};

/// The parameter that names the review whose request is taken.
pub const REVIEW_ID: &str = "review_id";

/// The parameter with the reviews that are approved.
pub const APPROVE: &str = "approve";

/// The parameter with the reviews that are discarded.
pub const DISCARD: &str = "discard";

/// What is asked by pairs, of a board or of the service itself.
#[derive(Clone, Copy, Debug, PartialEq, Eq)]
pub enum Form {
    /// That a request which was kept is answered now.
    Take,
    /// That requests are approved or discarded.
    Review,
    /// What has no parameter of its own.
    Bare,
}

// The id of a review.
fn review_id_of(text: &str) -> Option<u64>
    ensures value { result ≡ review_id_of text.now }
    ensures range { IfSome result IsReviewId }
{
    match read_whole(text) {
        Some(n) if n < 1 << 53 => Some(n),
        _ => None,
    }
}

fn review_ids_of(alloc: Global, texts: &[&str]) -> Result<Option<Vec<u64>>, AllocError>
    ensures value { IfOk result
        (λ o. option_map (λ v. v.items) o ≡ review_ids_of (map (λ s. s.now) texts.now)) }
    ensures range { IfOk result (λ o. IfSome o (λ v. All IsReviewId v.items)) }
{
    let mut ids = Vec::new(alloc);
    for text in texts {
        match review_id_of(text) {
            Some(id) => ids.push(id)?,
            None => return Ok(None),
        }
    }
    Ok(Some(ids))
}

// Ids parted by commas.
#[tactic(auto, unfolding(crate::specs::ReviewPairs::review_list_of))]
fn review_list_of(alloc: Global, text: &str) -> Result<Option<Vec<u64>>, AllocError>
    ensures value { IfOk result (λ o. option_map (λ v. v.items) o ≡ review_list_of text.now) }
    ensures range { IfOk result (λ o. IfSome o (λ v. All IsReviewId v.items)) }
{
    let texts = pieces(alloc, text)?;
    review_ids_of(alloc, &texts)
}

// Whether a parameter is accepted everywhere.
fn is_free(parameter: Option<Parameter>) -> bool
    ensures { result ≡ is_free parameter }
{
    matches!(parameter, Some(Parameter::Unused))
}

// Whether the request takes the pair.
fn fits(alloc: Global, form: Form, pair: &Pair) -> Result<bool, AllocError>
    ensures { IfOk result (λ b. b ≡ fits form pair.now) }
{
    match form {
        Form::Take if pair.name() == REVIEW_ID => Ok(review_id_of(pair.value()).is_some()),
        Form::Review if pair.name() == APPROVE || pair.name() == DISCARD => {
            Ok(review_list_of(alloc, pair.value())?.is_some())
        }
        _ => Ok(is_free(parameter_of(pair.name()))),
    }
}

/// The name of the first pair that the request doesn't take, or whose name stands again.
pub fn unfit_name<'p>(
    alloc: Global,
    form: Form,
    pairs: &'p [Pair],
) -> Result<Option<&'p str>, AllocError>
    ensures { IfOk result (λ o. option_map (λ s. s.now) o ≡ unfit_name form [] pairs.entry.now) }
{
    for (i, pair) in pairs.iter().enumerate() {
        if has_name(&pairs[..i], pair.name()) || !fits(alloc, form, pair)? {
            return Ok(Some(pair.name()));
        }
    }
    Ok(None)
}

/// The id of a take.
pub fn review_id_in(pairs: &[Pair]) -> u64
    ensures value { result ≡ review_id_in pairs.now }
    ensures range { IsReviewId result }
{
    match value_of(pairs, REVIEW_ID) {
        Some(value) => review_id_of(value).unwrap_or(0),
        None => 0,
    }
}

/// The ids of a list, none where it isn't given.
pub fn review_ids_at(alloc: Global, pairs: &[Pair], name: &str) -> Result<Vec<u64>, AllocError>
    ensures value { IfOk result (λ v. v.items ≡ review_ids_at name.now pairs.now) }
    ensures range { IfOk result (λ v. All IsReviewId v.items) }
{
    let Some(value) = value_of(pairs, name) else {
        return Ok(Vec::new(alloc));
    };
    match review_list_of(alloc, value)? {
        Some(ids) => Ok(ids),
        None => Ok(Vec::new(alloc)),
    }
}

/// The list that has to be given and isn't: one of the two is enough.
pub fn missing_list(pairs: &[Pair]) -> Option<&'static str>
    ensures { option_map (λ s. s.now) result ≡ missing_list pairs.now }
{
    if has_name(pairs, APPROVE) || has_name(pairs, DISCARD) {
        None
    } else {
        Some(APPROVE)
    }
}

// Whether an id stands in the list twice.
fn repeats(ids: &[u64]) -> bool
    ensures { result ≡ repeats ids.now }
{
    for (i, id) in ids.iter().enumerate() {
        if ids[i + 1..].contains(id) {
            return true;
        }
    }
    false
}

// Whether an id stands in both lists.
fn overlap(xs: &[u64], ys: &[u64]) -> bool
    ensures { result ≡ overlap xs.now ys.now }
{
    xs.iter().any(|x| ys.contains(x))
}

/// The list in which an id stands that was named before.
pub fn repeating_list(approve: &[u64], discard: &[u64]) -> Option<&'static str>
    ensures { option_map (λ s. s.now) result ≡ repeating_list approve.now discard.now }
{
    if repeats(approve) {
        Some(APPROVE)
    } else if repeats(discard) || overlap(approve, discard) {
        Some(DISCARD)
    } else {
        None
    }
}
