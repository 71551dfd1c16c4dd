// The bodies of replies of a board, as JSON.
ghost use Rattle.std.specs.Prelude.{◌≡◌, map, IfOk};
ghost use Rattle.serde_json.specs.View.{view};
ghost use Rattle.rest_replies.specs.Bodies.{filed_data, row_data, rows_data};

use crate::texts::{last_part_text, review_state_text};
use plan_terms::Memory;
use review_board::{ReviewState, Row};
use serde_json::{Value, json};
use std::alloc::Global;

/// A request that was just filed for its review.
pub fn filed_value(alloc: Global, id: u64) -> Result<Value, Memory>
    ensures { IfOk result (λ v. view v ≡ filed_data id) }
{
    let status = review_state_text(ReviewState::PendingReview);
    Ok(json!(in alloc; {"reviewId": id, "status": status, "version": 1u64})?)
}

// A reviewed request among the others.
fn row_value(alloc: Global, row: &Row) -> Result<Value, Memory>
    ensures { IfOk result (λ v. view v ≡ row_data row.now) }
{
    let endpoint = last_part_text(alloc, row.path.as_slice())?;
    let endpoint = endpoint.as_str();
    let status = review_state_text(row.state);
    Ok(json!(in alloc; {"endpoint": endpoint, "reviewId": (row.id), "status": status})?)
}

fn row_values(alloc: Global, rows: &[Row]) -> Result<Vec<Value>, Memory>
    ensures { IfOk result (λ list. map view list.items ≡ map row_data rows.now) }
{
    let mut list = Vec::new(alloc);
    for row in rows {
        list.push(row_value(alloc, row)?)?;
    }
    Ok(list)
}

/// The reviewed requests.
pub fn rows_value(alloc: Global, rows: &[Row]) -> Result<Value, Memory>
    ensures { IfOk result (λ v. view v ≡ rows_data rows.now) }
{
    let requests = Value::Array(row_values(alloc, rows)?);
    Ok(json!(in alloc; {"requests": requests, "version": 1u64})?)
}
