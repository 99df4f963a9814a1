//! What the gateway's components refuse.
ghost use Rattle.std.specs.Prelude.{◌≡◌, true, false};
ghost use Rattle.std.specs.Option.{option_map_or};
ghost use Rattle.kind_trait.specs.Meanings.{Activate, Create, Modified, RefusedWhere};
ghost use Rattle.gateway.specs.Refusals.{lacks_text, refuses_told, text_at};

use crate::classes::Class;
use kind_trait::{KindFault, Site};
use prop_map::Value;

// The text of a property, empty where it has none.
pub(crate) fn text_at<'s>(site: &'s Site, key: &str) -> &'s str
    ensures { result.now ≡ text_at site.now.properties key.now }
{
    match site.properties.get(key) {
        Some(Value::Text(text)) => text.as_str(),
        _ => "",
    }
}

// Whether the text that the class needs is missing or empty.
fn lacks_text(class: Class, site: &Site) -> bool
    ensures { result ≡ lacks_text class site.now.properties }
{
    match class.needed_key() {
        Some(key) => text_at(site, key).is_empty(),
        None => false,
    }
}

// An instance is made of the gateway's classes alone.
pub(crate) fn made(site: &Site) -> Result<(), KindFault>
    ensures { RefusedWhere (refuses_told site.now.class site.now.properties Create) result }
{
    match Class::of(site.class.as_str()) {
        Some(_) => Ok(()),
        None => Err(KindFault::Refused),
    }
}

// An instance works with the text that its class needs alone.
pub(crate) fn works(site: &Site) -> Result<(), KindFault>
    ensures activate { RefusedWhere (refuses_told site.now.class site.now.properties Activate) result }
    ensures modified { RefusedWhere (refuses_told site.now.class site.now.properties Modified) result }
{
    match Class::of(site.class.as_str()) {
        Some(class) if lacks_text(class, site) => Err(KindFault::Refused),
        _ => Ok(()),
    }
}
