//! What is proved of the legs that have given routes.

ghost use Rattle.ats_route_tree.specs.Laws.{LegsAreThoseOfRoutes, LegsAreOne};

/// A law: of valid paths the legs that are found, route by route, are those of the tree that has these routes, and none
/// are found just where no tree has them.
pub fn legs_are_those_of_routes()
    ensures { LegsAreThoseOfRoutes }
{}

/// A law: no two trees have the same routes.
pub fn legs_are_one()
    ensures { LegsAreOne }
{}
