// Laws of the definitions in `specs/`, each the contract of a function that does nothing.
ghost use Rattle.live_service.specs.Heals.{MoversHealNothing, PlannersHealNothing};

/// No mover and no planner makes a fix: of the shares of a live service, only those of links and of
/// the console hold one, and there only a request to the anomaly detector makes it.
pub fn workers_heal_nothing()
    ensures movers { MoversHealNothing }
    ensures planners { PlannersHealNothing }
{}
