//! Gets by token.

use scr_world::Token;
use std::marker::Model;

/// Stands for a get by token. Contracts see the place of its entry, the bundle and the service. It is made by
/// [`crate::Core::get_use`] alone.
#[derive(Debug, Drop)]
pub struct UseNote {
    token: Token,
}

impl Model for UseNote {
    ghost use Rattle.scr_world.specs.declared.marks.Token.{Token};

    ghost Value = { Token };

    ghost view = { λ n. n.token };
}

impl UseNote {
    ghost use Rattle.std.specs.Prelude.{◌≡◌};

    pub(crate) fn new(token: Token) -> UseNote
        ensures { result ≡ token }
    {
        UseNote { token }
    }

    pub(crate) fn token(&self) -> &Token
        ensures { result.now ≡ self.now }
    {
        &self.token
    }

    /// The place of the entry of the get, from 0 on.
    pub fn place(&self) -> u64
        ensures { result ≡ self.now.place }
    {
        self.token.place
    }

    /// The number of the bundle that got the service.
    pub fn bundle(&self) -> u64
        ensures { result ≡ self.now.bundle }
    {
        self.token.bundle
    }

    /// The number of the service.
    pub fn service(&self) -> u64
        ensures { result ≡ self.now.service }
    {
        self.token.service
    }
}
