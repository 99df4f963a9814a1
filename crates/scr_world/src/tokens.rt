//! Gets by token.
ghost use Rattle.scr_world.specs.Calls.{has_token, is_token};
ghost use Rattle.std.specs.List.{list_any};
ghost use Rattle.std.specs.Prelude.{◌≡◌};

use crate::{Token, World};

/// Whether a get by token stands: one at its place, of its bundle and of its service.
pub fn has_token(world: &World, note: &Token) -> bool
    ensures { result ≡ has_token world.now note.now }
{
    stands(world.tokens.as_slice(), note)
}

fn stands(tokens: &[Token], note: &Token) -> bool
    ensures { result ≡ list_any (is_token note.now) tokens.now }
{
    tokens.iter().any(|token| is_token(note, token))
}

fn is_token(note: &Token, token: &Token) -> bool
    ensures { result ≡ is_token note.now token.now }
{
    token.place == note.place && token.bundle == note.bundle && token.service == note.service
}
