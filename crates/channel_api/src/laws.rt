//! Laws on what a path names.
ghost use Rattle.channel_api.specs.Routes.{EachNameHasItsRoutes, OthersHaveNone};

/// The paths of a channel's five resources are their routes, whatever name of up to 32 bytes it has. A path in which no such name
/// is has no route.
pub fn each_name_has_its_routes()
    ensures each { EachNameHasItsRoutes }
    ensures others { OthersHaveNone }
{}
