//! What an attribute says.
use cred_caps::CapSet;
use std::marker::Model;

/// What the capability attribute of a file says (capabilities(7), "File capabilities"). Contracts
/// see the record `Attribute` of `specs/Attribute.antt` in `cred_rules`, with the same fields.
#[derive(Clone, Copy, PartialEq, Eq, Debug)]
pub struct FileCaps {
    /// The version: 1, 2 or 3. In version 1 no capability above 31 stands in a set.
    pub version: u8,
    /// The file's permitted set: what execve makes permitted, within the bounding set.
    pub perm: CapSet,
    /// The file's inheritable set: what execve keeps of the task's inheritable set.
    pub inh: CapSet,
    /// The file's effective flag: whether execve makes effective what it makes permitted.
    pub effective: bool,
    /// The user id, in the initial user namespace, of the root of the namespace in which the file
    /// has these capabilities. In versions 1 and 2 it is 0. In version 3 it may be any `u32`, also
    /// 4294967295, which is no user id.
    pub root: u32,
}

impl Model for FileCaps {
    ghost use Rattle.cred_rules.specs.Attribute.{Attribute, IsVersioned};

    ghost Value = { Attribute };

    ghost view = { λ c. record {
      version = c.version;
      perm = c.perm;
      inh = c.inh;
      effective = c.effective;
      root = c.root;
    } };

    ghost invariant = { λ c. IsVersioned c.version c.root c.perm c.inh };

    ghost inverse = { λ a. record {
      version = a.version;
      perm = a.perm;
      inh = a.inh;
      effective = a.effective;
      root = a.root;
    } };
}
