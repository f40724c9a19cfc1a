ghost use Rattle.graph_build.specs.NodeLaw.{PlansHaveNodes};
ghost use Rattle.graph_build.specs.PlanLaw.{PlansHaveSets};

/// The law of the sets of plans, for proofs alone: a plan has 1 to 255 sets, each of one brick or three with a
/// majority of them as its quorum and its place as its number; their names and their clients' names are names and
/// differ, and no brick is in two places.
pub fn plans_have_sets()
    ensures { PlansHaveSets }
{}

/// The law of the nodes of plans, for proofs alone: they are a tree whose top is the last node, each below its one
/// parent. One node distributes, with a child for each set; pass nodes alone lead from there to the replicate node
/// of the set, and from its children to the clients of its bricks. A path has at most 26 nodes and one io-cache.
pub fn plans_have_nodes()
    ensures { PlansHaveNodes }
{}
