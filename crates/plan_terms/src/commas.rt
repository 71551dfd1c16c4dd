// Lists that are parted by commas.
ghost use Rattle.std.specs.Prelude.{◌≡◌, ◌<◌, ◌∷◌, [], length, map, IfOk, IfSome, MatchOption};
ghost use Rattle.plan_terms.specs.Commas.{names_in, pieces};

use crate::Name;
use std::alloc::{AllocError, Global};

// The piece before the first comma, and what stands behind it.
fn cut(text: &str) -> Option<(&str, &str)>
    ensures pieces { MatchOption result (pieces text.now ≡ text.now ∷ [])
        (λ x. pieces text.now ≡ x.0.now ∷ pieces x.1.now) }
    ensures shorter { IfSome result (λ x. length x.1.now < length text.now) }
{
    text.split_once(',')
}

/// The pieces between the commas of a text, one more than it has commas.
pub fn pieces<'t>(alloc: Global, text: &'t str) -> Result<Vec<&'t str>, AllocError>
    ensures { IfOk result (λ v. map (λ s. s.now) v.items ≡ pieces text.entry.now) }
{
    let mut found = Vec::new(alloc);
    let mut rest = text;
    while let Some((piece, behind)) = cut(rest) {
        found.push(piece)?;
        rest = behind;
    }
    found.push(rest)?;
    Ok(found)
}

/// The names in a text, parted by commas; an empty text has none.
pub fn names<K>(alloc: Global, text: &str) -> Result<Vec<Name<K>>, AllocError>
    ensures { IfOk result (λ v. v.items ≡ names_in text.now) }
{
    let mut names = Vec::new(alloc);
    if text.is_empty() {
        return Ok(names);
    }
    let pieces = pieces(alloc, text)?;
    for piece in &pieces {
        names.push(Name::new(String::from_str(alloc, piece)?))?;
    }
    Ok(names)
}
