//! Policies: which rights each role has.
//!
//! What they promise: a role is allowed what is asked exactly where the rights asked for are a
//! subset of its own, and else `missing` tells the least of them that it lacks; `grant` and
//! `revoke` change one right of one role and nothing else; and by `both` a role has a right exactly
//! where two policies give it. Roles and rights are numbers. Contracts see a policy as how many
//! rights there are and, for each role, the set of those that it has (`specs/Policies.antt`).

ghost use Rattle.std.specs.Prelude.{◌≡◌, ◌<◌, ◌↔◌, ℕ, min, length, IsTrue, IfOk, MatchOption};
ghost use Rattle.fixedbitset.specs.Bits.{contains};
ghost use Rattle.uses.specs.Policies.{Has, HaveSameSize, IsGranted};
ghost use Rattle.uses.specs.Policies.{IsRevoked, IsLeastMissing};

use fixedbitset::FixedBitSet;
use std::alloc::{AllocError, Global};
use std::marker::Model;

/// The rights of each role.
#[derive(Drop)]
pub struct Policy {
    rights: usize,
    roles: Vec<FixedBitSet>,
}

impl Model for Policy {
    ghost use Rattle.std.specs.Prelude.{◌≡◌, All};
    ghost use Rattle.uses.specs.Policies.{Rights, code};

    ghost Value = { Rights };

    ghost coded = { code };

    ghost view = { λ s. record { rights = s.rights; roles = s.roles.items } };

    ghost invariant = { λ s. All (λ role. role.length ≡ s.rights) s.roles.items };
}

impl Policy {
    /// So many roles that have none of so many rights.
    pub fn new(alloc: Global, roles: usize, rights: usize) -> Result<Policy, AllocError>
        ensures roles { IfOk result (λ policy. length policy.roles ≡ roles) }
        ensures rights { IfOk result (λ policy. policy.rights ≡ rights) }
        ensures none { IfOk result (λ policy. (role right : ℕ) → ¬ (Has policy role right)) }
    {
        let mut sets = Vec::new(alloc);
        for _ in 0..roles {
            sets.push(FixedBitSet::with_capacity(alloc, rights)?)?;
        }
        Ok(Policy {
            rights,
            roles: sets,
        })
    }

    /// How many roles there are.
    pub fn roles(&self) -> usize
        ensures { result ≡ length self.now.roles }
    {
        self.roles.len()
    }

    /// How many rights there are. No role has another one.
    pub fn rights(&self) -> usize
        ensures count { result ≡ self.now.rights }
        ensures all { (role right : ℕ) → Has self.now role right → right < result }
    {
        self.rights
    }

    /// Gives the right to the role.
    pub fn grant(&mut self, role: usize, right: usize)
        requires role { role < length self.old.roles }
        requires right { right < self.old.rights }
        ensures size { HaveSameSize self.old self.new }
        ensures granted { IsGranted self.old role right self.new }
    {
        self.roles[role].insert(right);
    }

    /// Takes the right from the role.
    pub fn revoke(&mut self, role: usize, right: usize)
        requires role { role < length self.old.roles }
        requires right { right < self.old.rights }
        ensures size { HaveSameSize self.old self.new }
        ensures revoked { IsRevoked self.old role right self.new }
    {
        self.roles[role].remove(right);
    }

    /// Whether the role has each of the rights asked for. Where none is asked for, it is `true`.
    pub fn allows(&self, role: usize, asked: &FixedBitSet) -> bool
        requires { role < length self.now.roles }
        ensures { IsTrue result
            ↔ ((right : ℕ) → IsTrue (contains asked.now right) → Has self.now role right) }
    {
        self.missing(role, asked).is_none()
    }

    /// The least of the rights asked for that the role lacks, or `None` where it lacks none.
    pub fn missing(&self, role: usize, asked: &FixedBitSet) -> Option<usize>
        requires { role < length self.now.roles }
        ensures { MatchOption result
            ((right : ℕ) → IsTrue (contains asked.now right) → Has self.now role right)
            (IsLeastMissing self.now role (λ right. IsTrue (contains asked.now right))) }
    {
        self.roles[role].first_lacking(asked)
    }

    /// The policy by which a role has a right if both policies give it.
    pub fn both(&self, alloc: Global, other: &Policy) -> Result<Policy, AllocError>
        ensures roles { IfOk result
            (λ both. length both.roles ≡ min (length self.now.roles) (length other.now.roles)) }
        ensures rights { IfOk result (λ both. both.rights ≡ min self.now.rights other.now.rights) }
        ensures both { IfOk result (λ both. (role right : ℕ)
            → Has both role right ↔ (Has self.now role right × Has other.now role right)) }
    {
        let mut roles = Vec::new(alloc);
        for role in 0..self.roles.len().min(other.roles.len()) {
            roles.push(self.roles[role].bitand(&other.roles[role])?)?;
        }
        Ok(Policy {
            rights: self.rights.min(other.rights),
            roles,
        })
    }
}
