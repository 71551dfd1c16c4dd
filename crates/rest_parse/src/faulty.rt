// Faulty pairs of a query.
ghost use Rattle.std.specs.Prelude.{◌≡◌, [], option_map, IfOk};
ghost use Rattle.rest_parse.specs.Parameters.{bad_name, has_form, is_bad, is_taken};

use crate::lists::id_list;
use crate::parameters::{
    Parameter, accepts, cap_of, factor_of, id_of, moment_of, parameter_of, steps_of, truth_of,
};
use crate::query::{Pair, has_name};
use crate::routes::Endpoint;
use std::alloc::{AllocError, Global};

// Whether the value has the form of the parameter.
fn has_form(alloc: Global, parameter: Parameter, value: &str) -> Result<bool, AllocError>
    ensures { IfOk result (λ b. b ≡ has_form parameter value.now) }
{
    Ok(match parameter {
        Parameter::Goals | Parameter::ExcludedTopics | Parameter::Unused => true,
        Parameter::SkipHardGoals | Parameter::DryRun | Parameter::ForceStop => {
            truth_of(value).is_some()
        }
        Parameter::BrokerIds => id_list(alloc, value)?.is_some(),
        Parameter::Steps => steps_of(value).is_some(),
        Parameter::Broker => id_of(value).is_some(),
        Parameter::BrokerCap | Parameter::ClusterCap | Parameter::LeaderCap => {
            cap_of(value).is_some()
        }
        Parameter::Topics => !value.is_empty(),
        Parameter::Factor => factor_of(value).is_some(),
        Parameter::Now | Parameter::AlertAge | Parameter::HealAge => moment_of(value).is_some(),
    })
}

// Whether the endpoint takes a parameter with this value.
fn is_taken(
    alloc: Global,
    endpoint: Endpoint,
    parameter: Option<Parameter>,
    value: &str,
) -> Result<bool, AllocError>
    ensures { IfOk result (λ b. b ≡ is_taken endpoint parameter value.now) }
{
    match parameter {
        Some(parameter) if accepts(endpoint, parameter) => has_form(alloc, parameter, value),
        _ => Ok(false),
    }
}

// Whether a pair is faulty behind those before.
fn is_bad(
    alloc: Global,
    endpoint: Endpoint,
    before: &[Pair],
    pair: &Pair,
) -> Result<bool, AllocError>
    ensures { IfOk result (λ b. b ≡ is_bad endpoint before.now pair.now) }
{
    if has_name(before, pair.name()) {
        return Ok(true);
    }
    let taken = is_taken(alloc, endpoint, parameter_of(pair.name()), pair.value())?;
    Ok(!taken)
}

/// The name of the first faulty pair.
pub fn bad_name<'p>(
    alloc: Global,
    endpoint: Endpoint,
    pairs: &'p [Pair],
) -> Result<Option<&'p str>, AllocError>
    ensures { IfOk result (λ o. option_map (λ s. s.now) o ≡ bad_name endpoint [] pairs.entry.now) }
{
    for (i, pair) in pairs.iter().enumerate() {
        if is_bad(alloc, endpoint, &pairs[..i], pair)? {
            return Ok(Some(pair.name()));
        }
    }
    Ok(None)
}
