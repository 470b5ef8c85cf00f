// The pairs of a certificate, in the order in which they were put, in places of their own.
ghost use Rattle.std.specs.Prelude.{◌≡◌, ◌≤◌, ◌<◌, length, take};
ghost use Rattle.rules.specs.Limits as Limits;
ghost use Rattle.gathered.specs.Pairs.{Listed, no_pairs, with_pair};

use rules::LISTED;
use std::marker::Model;

/// Pairs: at most LISTED, their issuers and their subjects side by side.
#[derive(Drop)]
pub struct Pairs {
    issuers: [u16; LISTED],
    subjects: [u16; LISTED],
    count: usize,
}

impl Model for Pairs {
    ghost Value = { Listed };

    ghost view = { λ p. record { issuers = take p.count p.issuers; subjects = take p.count p.subjects } };

    ghost invariant = { λ p. p.count ≤ Limits.listed };
}

impl Pairs {
    pub fn new() -> Self
        ensures { result ≡ no_pairs }
    {
        Pairs {
            issuers: [0; LISTED],
            subjects: [0; LISTED],
            count: 0,
        }
    }

    pub fn len(&self) -> usize
        ensures { result ≡ length self.now.issuers }
    {
        self.count
    }

    pub fn issuers(&self) -> &[u16]
        ensures places { result.now ≡ self.now.issuers }
        ensures few { length self.now.issuers ≤ Limits.listed }
    {
        &self.issuers[..self.count]
    }

    pub fn subjects(&self) -> &[u16]
        ensures places { result.now ≡ self.now.subjects }
        ensures paired { length self.now.subjects ≡ length self.now.issuers }
    {
        &self.subjects[..self.count]
    }

    /// Puts a pair after the others.
    pub fn push(&mut self, issuer: u16, subject: u16)
        requires { length self.old.issuers < Limits.listed }
        ensures { self.new ≡ with_pair issuer subject self.old }
    {
        self.issuers[self.count] = issuer;
        self.subjects[self.count] = subject;
        self.count += 1;
    }
}
