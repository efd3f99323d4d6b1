//! The names of the capabilities (capabilities(7), linux/capability.h).
ghost use Rattle.std.specs.Prelude.{◌≡◌, ◌<◌, length, map, Some, slice_get, IfSome, IsNone};
ghost use Rattle.std.specs.Prelude.{Contains};
ghost use Rattle.cred_caps.specs.Names.{cap_names};

use crate::cap::Cap;

/// The name of number n stands at place n, as in `specs/Names.antt`.
static NAMES: [&str; 41] = [
    "CAP_CHOWN",
    "CAP_DAC_OVERRIDE",
    "CAP_DAC_READ_SEARCH",
    "CAP_FOWNER",
    "CAP_FSETID",
    "CAP_KILL",
    "CAP_SETGID",
    "CAP_SETUID",
    "CAP_SETPCAP",
    "CAP_LINUX_IMMUTABLE",
    "CAP_NET_BIND_SERVICE",
    "CAP_NET_BROADCAST",
    "CAP_NET_ADMIN",
    "CAP_NET_RAW",
    "CAP_IPC_LOCK",
    "CAP_IPC_OWNER",
    "CAP_SYS_MODULE",
    "CAP_SYS_RAWIO",
    "CAP_SYS_CHROOT",
    "CAP_SYS_PTRACE",
    "CAP_SYS_PACCT",
    "CAP_SYS_ADMIN",
    "CAP_SYS_BOOT",
    "CAP_SYS_NICE",
    "CAP_SYS_RESOURCE",
    "CAP_SYS_TIME",
    "CAP_SYS_TTY_CONFIG",
    "CAP_MKNOD",
    "CAP_LEASE",
    "CAP_AUDIT_WRITE",
    "CAP_AUDIT_CONTROL",
    "CAP_SETFCAP",
    "CAP_MAC_OVERRIDE",
    "CAP_MAC_ADMIN",
    "CAP_SYSLOG",
    "CAP_WAKE_ALARM",
    "CAP_BLOCK_SUSPEND",
    "CAP_AUDIT_READ",
    "CAP_PERFMON",
    "CAP_BPF",
    "CAP_CHECKPOINT_RESTORE",
];

/// The text at a place. Apart, so that the proof of `cap_name` does not carry the whole table.
fn text_at(texts: &[&'static str], i: usize) -> &'static str
    requires { i < length texts.now }
    ensures { slice_get (map (λ t. t.now) texts.now) i ≡ Some result.now }
{
    texts[i]
}

/// The name of a capability, with its prefix `CAP_`.
#[tactic(auto, unfolding(crate::specs::Names::cap_names))]
pub fn cap_name(c: Cap) -> &'static str
    ensures { slice_get cap_names c ≡ Some result.now }
{
    text_at(&NAMES, c.number() as usize)
}

/// The capability that a text names: with the prefix `CAP_`, in capital letters. `None` exactly for
/// a text that is no such name.
pub fn cap_of_name(name: &str) -> Option<Cap>
    ensures cap { IfSome result (λ c. slice_get cap_names c ≡ Some name.now) }
    ensures none { IsNone result → ¬ Contains cap_names name.now }
{
    for n in 0..41 {
        let cap = Cap::new(n)?;
        if cap_name(cap) == name {
            return Some(cap);
        }
    }
    None
}
