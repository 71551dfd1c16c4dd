// Laws of the definitions in `specs/`, each the contract of a function that does nothing.
ghost use Rattle.core_terms.specs.Examples.{AreExamples};
ghost use Rattle.core_terms.specs.Same.{SamenessIsEquality};
ghost use Rattle.goal_set.specs.declared.trace.Trace.{Trace};

/// The tests by which the core tells clusters, lists, goals and requests apart mean that they are
/// equal.
pub fn sameness_is_equality()
    ensures { SamenessIsEquality }
{}

/// The definitions, computed on small histories: a request that is carried out, stopped in both
/// ways or overtaken by a death, a plan that comes too late, requests beside one another, and caps
/// that change.
pub fn definitions_on_examples()
    ensures { (trace : Trace) → AreExamples trace }
{}
