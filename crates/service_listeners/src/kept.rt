//! The listeners of a bundle that were removed, kept so that they can be put back without memory.
use crate::Listener;
use std::marker::Model;

/// Listeners by number, with room for others. Contracts see them, and for how many listeners there is room.
#[derive(Drop)]
pub struct KeptListeners {
    pub(crate) rows: Vec<Listener>,
}

impl Model for KeptListeners {
    ghost use Rattle.service_listeners.specs.Numbers.{AreRising};
    ghost use Rattle.service_listeners.specs.Undoing.{Kept};
    ghost use Rattle.std.specs.Prelude.{vec_capacity};

    ghost Value = { Kept };

    ghost use Rattle.std.specs.Coded.{codes};
    ghost use Rattle.ldap_filter.specs.TreeCodes.{tree_code};

    ghost coded = { Prim.hlevel (codes, tree_code) };

    ghost view = { λ k. record { listeners = k.rows.items; room = vec_capacity k.rows } };

    ghost invariant = { λ k. AreRising k.rows.items };
}
