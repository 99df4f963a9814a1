//! That levels are the least numbers that stand above what is consumed.
ghost use Rattle.level_order.specs.LeastLevels.{AreLeast};
ghost use Rattle.level_order.specs.Levels.{AreLevels};

use component_dto::Description;

/// For contracts alone: the level of each description is higher than those of the descriptions that it consumes, and of
/// all such numbers the levels are the least.
pub fn note_least(descriptions: &[Description], levels: &[u32])
    requires { AreLevels descriptions.now levels.now }
    ensures { AreLeast descriptions.now levels.now }
{
    let _both = (descriptions.len(), levels.len());
}
