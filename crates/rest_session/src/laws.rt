// Laws of the definitions in `specs/`, each the contract of a function that does nothing.
ghost use Rattle.rest_session.specs.Heals.{OnlyDetectsHeal, RoundsHealNothing};

/// Only a request to the anomaly detector makes a fix: the entries of any other request have none,
/// and those of a round have none. Which fix it makes is part of what each request's own entries
/// are.
pub fn only_detects_heal()
    ensures requests { OnlyDetectsHeal }
    ensures rounds { RoundsHealNothing }
{}
