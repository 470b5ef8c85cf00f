// The policies of a certificate, in the order in which they were put, in places of their own.
ghost use Rattle.std.specs.Prelude.{◌≡◌, List, ℕ, [], ◌∷◌, ◌++◌, ◌≤◌, ◌<◌, length, take};
ghost use Rattle.rules.specs.Limits as Limits;

use rules::LISTED;
use std::marker::Model;

/// Policies: at most LISTED.
#[derive(Drop)]
pub struct Policies {
    places: [u16; LISTED],
    count: usize,
}

impl Model for Policies {
    ghost Value = { List ℕ };

    ghost view = { λ p. take p.count p.places };

    ghost invariant = { λ p. p.count ≤ Limits.listed };
}

impl Policies {
    pub fn new() -> Self
        ensures { result ≡ [] }
    {
        Policies {
            places: [0; LISTED],
            count: 0,
        }
    }

    pub fn len(&self) -> usize
        ensures { result ≡ length self.now }
    {
        self.count
    }

    pub fn as_slice(&self) -> &[u16]
        ensures places { result.now ≡ self.now }
        ensures few { length self.now ≤ Limits.listed }
    {
        &self.places[..self.count]
    }

    /// Puts a policy after the others.
    pub fn push(&mut self, policy: u16)
        requires { length self.old < Limits.listed }
        ensures { self.new ≡ self.old ++ policy ∷ [] }
    {
        self.places[self.count] = policy;
        self.count += 1;
    }
}
