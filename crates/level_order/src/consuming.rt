//! Which descriptions provide what another one references.
ghost use Rattle.std.specs.Prelude.{◌≡◌};
ghost use Rattle.level_order.specs.Levels.{consumes, provides};

use component_dto::Description;
use prop_map::Str;

/// Whether the description provides the interface.
pub fn provides(description: &Description, interface: &Str) -> bool
    ensures { result ≡ provides description.now interface.now }
{
    description
        .service_interfaces
        .as_slice()
        .iter()
        .any(|name| name.as_str() == interface.as_str())
}

/// Whether the other description provides an interface that this one references.
pub fn consumes(description: &Description, other: &Description) -> bool
    ensures { result ≡ consumes description.now other.now }
{
    description
        .references
        .as_slice()
        .iter()
        .any(|reference| provides(other, &reference.interface_name))
}
