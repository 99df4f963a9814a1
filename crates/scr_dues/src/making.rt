//! How far an instance in the making is known to be with its references, so that no turn goes over them from the first one on (our
//! own).
ghost use Rattle.callback_orders.specs.Grammar.{is_unbind};
ghost use Rattle.scr_dues.specs.Makings.{known_after_end, lets_go, nothing_known};
ghost use Rattle.scr_world.specs.Instances.{has_turn, last_is};
ghost use Rattle.scr_world.specs.declared.instance.Instance.{Instance};
ghost use Rattle.std.specs.List.{list_any};
ghost use Rattle.std.specs.Prelude.{◌≡◌, ◌==◌, ◌&&◌};

use callback_orders::Callback;
use scr_world::{Instance, World, last_callback};

/// How far an instance in the making is: its references before a place hold what was chosen for them.
#[derive(Clone, Copy, Debug, PartialEq, Eq, Drop)]
pub struct Making {
    /// The number of the instance.
    pub instance: u64,
    /// The place in its description of the first reference of which that isn't known.
    pub place: usize,
    /// So many of its choices, from the first one on, are for references before that place.
    pub choices: usize,
}

// Whether the last callback that an instance was told of is an Unbind.
fn last_is_unbind(instance: &Instance) -> bool
    ensures { result ≡ last_is is_unbind instance.now.callbacks }
{
    matches!(
        last_callback(&instance.callbacks),
        Some(Callback::Unbind { .. })
    )
}

// Whether one of these instances is told by a turn that it lets go of a service.
fn lets_go(instances: &[Instance], number: u64, turn: u64) -> bool
    ensures { result ≡ list_any (λ (i : Instance). (i.number == number) && (has_turn turn i && last_is is_unbind i.callbacks)) instances.now }
{
    instances.iter().any(|instance| {
        instance.number == number && instance.has_turn(turn) && last_is_unbind(instance)
    })
}

impl Making {
    /// Nothing is known. That is so in every world.
    pub fn none() -> Making
        ensures { result ≡ nothing_known }
    {
        Making {
            instance: 0,
            place: 0,
            choices: 0,
        }
    }

    /// What is known once a turn has ended that is under way in this world: nothing where it ends an Unbind of the instance, which
    /// holds one service less then. It takes no memory.
    pub fn after_end(self, world: &World, turn: u64) -> Making
        ensures { result ≡ known_after_end world.now turn self }
    {
        if lets_go(world.instances.as_slice(), self.instance, turn) {
            Making::none()
        } else {
            self
        }
    }
}
