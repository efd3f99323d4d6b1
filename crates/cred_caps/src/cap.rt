//! One capability.
ghost use Rattle.std.specs.Prelude.{◌≡◌, ◌<◌, ◌≤◌, ◌↔◌, IsNone, IfSome};

use std::marker::Model;

/// A capability, one of the 41 of capabilities(7). Contracts see its number, 0 to 40.
#[derive(Clone, Copy, PartialEq, Eq, Debug)]
pub struct Cap(u8);

impl Model for Cap {
    ghost use Rattle.std.specs.Prelude.{ℕ};
    ghost use Rattle.cred_caps.specs.Caps.{IsCap};

    ghost Value = { ℕ };

    ghost view = { λ c. c.0 };

    ghost invariant = { λ c. IsCap c.0 };

    ghost inverse = { λ n. record { 0 = n } };
}

impl Cap {
    /// The greatest number of a capability.
    pub const LAST: u32 = 40;

    /// CAP_CHOWN: gives files away, and to groups of others.
    pub const CHOWN: Cap = Cap(0);

    /// CAP_DAC_OVERRIDE: passes the permission bits of files.
    pub const DAC_OVERRIDE: Cap = Cap(1);

    /// CAP_DAC_READ_SEARCH: reads any file, and searches any directory.
    pub const DAC_READ_SEARCH: Cap = Cap(2);

    /// CAP_FOWNER: passes checks that the task owns the file.
    pub const FOWNER: Cap = Cap(3);

    /// CAP_FSETID: keeps the set-group-ID bit of a group that the task isn't in.
    pub const FSETID: Cap = Cap(4);

    /// CAP_KILL: signals any process.
    pub const KILL: Cap = Cap(5);

    /// CAP_SETGID: sets group ids and the supplementary groups at will.
    pub const SETGID: Cap = Cap(6);

    /// CAP_SETUID: sets user ids at will.
    pub const SETUID: Cap = Cap(7);

    /// CAP_SETPCAP: changes the bounding set, the securebits and, within the bounding set, the
    /// inheritable set.
    pub const SETPCAP: Cap = Cap(8);

    /// CAP_SYS_PTRACE: looks into any process.
    pub const SYS_PTRACE: Cap = Cap(19);

    /// CAP_SETFCAP: sets the capabilities of files.
    pub const SETFCAP: Cap = Cap(31);

    /// The capability of a number. `None` exactly above 40.
    pub fn new(n: u32) -> Option<Cap>
        ensures none { IsNone result ↔ (Self.LAST < n) }
        ensures cap { IfSome result (λ c. c ≡ n) }
    {
        if n > Self::LAST {
            return None;
        }
        Some(Cap(n as u8))
    }

    /// The capability's number, at most 40.
    pub fn number(&self) -> u32
        ensures value { result ≡ self.now }
        ensures last { result ≤ Self.LAST }
    {
        u32::from(self.0)
    }
}
