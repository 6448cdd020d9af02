// Permission sets.
#![tactic(auto)]

ghost use Rattle.std.specs.Prelude.{◌≡◌};
ghost use Rattle.perms.specs.Sets.{unite, without, within};

// A permission set: the sum of the numbers of its permissions.
#[derive(Clone, Copy)]
pub struct Perms(pub u8);

impl Perms {
    pub const READ: Perms = Perms(1);

    pub const WRITE: Perms = Perms(2);

    pub const APPEND: Perms = Perms(4);

    pub const MAP: Perms = Perms(8);

    pub const LINK: Perms = Perms(16);

    pub const LOCK: Perms = Perms(32);

    pub const EXECUTE: Perms = Perms(64);

    // The permissions of either set.
    pub fn union(self, other: Perms) -> Perms
        ensures { result ≡ unite self other }
    {
        Perms(self.0 | other.0)
    }

    // The permissions of this set that the other lacks.
    pub fn difference(self, other: Perms) -> Perms
        ensures { result ≡ without self other }
    {
        Perms(self.0 & !other.0)
    }

    // Whether every permission of the other set is in this one.
    pub fn contains(self, other: Perms) -> bool
        ensures { result ≡ within other self }
    {
        self.0 & other.0 == other.0
    }
}
