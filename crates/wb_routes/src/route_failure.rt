//! What isn't in effect.
use prop_map::Str;

/// Why a context or a pattern isn't in effect.
#[derive(Clone, Copy, Debug, PartialEq, Eq)]
pub enum RouteCause {
    /// The servlet's select matches no context that counts.
    NoContext,
    /// In every such context the pattern belongs to a better servlet.
    Shadowed,
    /// The text spells no pattern, or the property is neither a text nor texts.
    BadPattern,
    /// The service is no context.
    BadContext,
}

/// A context or a pattern that isn't in effect.
#[derive(Drop)]
pub struct RouteFailure {
    /// The service.
    pub service: u64,
    /// The pattern's text; the empty one for a context, and for a property that is neither a text nor texts.
    pub pattern: Str,
    /// Why it isn't.
    pub cause: RouteCause,
}
