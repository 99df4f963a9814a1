//! What a bundle needs and what it offers.

use ldap_filter::Filter;
use osgi_version::{Version, VersionRange};
use prop_map::{List, Properties, Shared, Str};

/// A package that a bundle imports, or a capability that it requires.
#[derive(Debug, Drop, PartialEq, Eq)]
pub struct WireNeed {
    /// The package, or the namespace of the capability.
    pub name: Str,
    /// Whether it is a package.
    pub package: bool,
    /// The versions that will do, or none where every version will. A capability has none.
    pub range: Option<Shared<VersionRange>>,
    /// The filter that an offer's attributes and versions have to match, or none where every offer will do. A package has
    /// none.
    pub filter: Option<Shared<Filter>>,
    /// Whether the bundle resolves without it too.
    pub optional: bool,
}

/// A package that a bundle exports, or a capability that it provides.
#[derive(Debug, Drop, PartialEq, Eq)]
pub struct Offer {
    /// The package, or the namespace of the capability.
    pub name: Str,
    /// Whether it is a package.
    pub package: bool,
    /// The greatest of its versions, 0.0.0 where it has none.
    pub version: Shared<Version>,
    /// One version of a package, and those that the attribute `version` of a capability lists; none where that lists
    /// none. By default 0.0.0.
    pub versions: Shared<List<Version>>,
    /// The attributes of a capability, each a text. A package has none.
    pub attributes: Shared<Properties>,
}

/// What a bundle needs and what it offers, each in the order of the headers: packages, then capabilities.
#[derive(Debug, Drop, PartialEq, Eq)]
pub struct Wiring {
    /// A need's place here is its place in a wire.
    pub needs: List<WireNeed>,
    /// An offer's place here is its place in a wire.
    pub offers: List<Offer>,
}
