//! The lines of routes.
use prop_map::Str;
use wb_routes::RouteCause;

/// A line of what is told of the routes.
#[derive(Debug, PartialEq, Eq, Drop)]
pub enum RouteLine {
    /// A pattern in effect: in a context it belongs to a servlet.
    Route {
        /// The context's path.
        path: Str,
        /// The pattern's text.
        pattern: Str,
        /// The servlet's service.
        service: u64,
    },
    /// A context or a pattern that isn't in effect.
    Failed {
        /// The service.
        service: u64,
        /// Why it isn't.
        cause: RouteCause,
    },
}
