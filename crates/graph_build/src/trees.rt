ghost use Rattle.std.specs.Prelude.{◌≡◌, ◌<◌};
ghost use Rattle.std.specs.List.{slice_get};
ghost use Rattle.graph_build.specs.PlanRules.{gathered as gathered_from, grown as grown_of, is_nested as is_nested_over, joined as joined_of, joined_info, no_tree};

use crate::infos::{Info, Role, Tree};

// The trees at these places, as one.
pub(crate) fn gathered(infos: &[Info], places: &[u8]) -> Tree
    ensures { result ≡ gathered_from no_tree infos.now places.now }
{
    let mut tree = Tree {
        depth: 0,
        plain: true,
        distribute: false,
        cache: false,
        queue: false,
    };
    for place in places {
        tree = with_tree_at(tree, infos, *place);
    }
    tree
}

fn with_tree_at(tree: Tree, infos: &[Info], place: u8) -> Tree
    ensures { result ≡ joined_info tree (slice_get infos.now place) }
{
    match infos.get(place as usize) {
        None => tree,
        Some(info) => joined(tree, info.tree),
    }
}

fn joined(a: Tree, b: Tree) -> Tree
    ensures { result ≡ joined_of a b }
{
    Tree {
        depth: if a.depth < b.depth { b.depth } else { a.depth },
        plain: a.plain && b.plain,
        distribute: a.distribute || b.distribute,
        cache: a.cache || b.cache,
        queue: a.queue || b.queue,
    }
}

// The tree of a volume over this one.
pub(crate) fn grown(role: Role, tree: Tree) -> Tree
    requires { tree.depth < 24 }
    ensures { result ≡ grown_of role tree }
{
    let mut tree = tree;
    tree.depth += 1;
    match role {
        Role::Client(_) => tree.plain = true,
        Role::Replicate => tree.plain = false,
        Role::Distribute => {
            tree.plain = false;
            tree.distribute = true;
        }
        Role::IoCache(_) => {
            tree.plain = false;
            tree.cache = true;
            tree.queue = true;
        }
        Role::IoThreads => {
            tree.plain = false;
            tree.queue = true;
        }
        Role::Pass => {}
    }
    tree
}

// Whether the tree may not be below a volume of this role.
pub(crate) fn is_nested(role: Role, tree: Tree) -> bool
    ensures { result ≡ is_nested_over role tree }
{
    match role {
        Role::Client(_) => false,
        Role::Replicate => !tree.plain,
        Role::Distribute => tree.distribute || tree.queue,
        Role::IoCache(_) => tree.cache,
        Role::IoThreads => false,
        Role::Pass => false,
    }
}
