//! What holds of the routes of every session: the tests that compute are the facts.
ghost use Rattle.route_graph.specs.Laws.{ReachingIsTested, FirstOnCycleIsFound, NoneIsFoundWithoutCycle, ClosingIsACycle, OpenLinksMakeNoCycle};

/// The test `reaches` passes exactly where one route leads to the other by one or more links.
#[tactic(auto, using(crate::proofs::CycleLaws::reaching_is_tested))]
pub fn reaching_is_tested()
    ensures { ReachingIsTested }
{}

/// `first_on_cycle` is some route exactly where that is the first that leads back to itself.
pub fn first_on_cycle_is_found()
    ensures { FirstOnCycleIsFound }
{}

/// `first_on_cycle` is none exactly where no route leads back to itself.
#[tactic(auto, using(crate::proofs::CycleLaws::none_is_found_without_cycle))]
pub fn none_is_found_without_cycle()
    ensures { NoneIsFoundWithoutCycle }
{}

/// A link closes a cycle exactly where, with it, its first route leads back to itself.
pub fn closing_is_a_cycle()
    ensures { ClosingIsACycle }
{}

/// Where a link closes no cycle, no route leads back to itself with it.
pub fn open_links_make_no_cycle()
    ensures { OpenLinksMakeNoCycle }
{}
