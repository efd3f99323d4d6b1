//! The first bytes of a capability's name.
ghost use Rattle.std.specs.Prelude.{◌≡◌, ◌≤◌, ◌∷◌, ◌++◌, ◌↔◌, [], map, take, length};
ghost use Rattle.std.specs.Prelude.{slice_get, IsTrue};
ghost use Rattle.std.specs.Prelude.{Some, None, if◌then◌else◌};
ghost use Rattle.std.specs.Char.{to_ascii_lowercase};
ghost use Rattle.cred_captext.specs.Names.{lowercase_name, cap_of_lowercase_name};
ghost use Rattle.cred_captext.specs.Names.{begins_with, begins_name};

use cred_caps::{Cap, cap_name};
use std::marker::Model;

/// The first bytes of a capability's name in lower case, as far as they are read. Contracts see
/// these bytes.
#[derive(Drop, Debug)]
pub struct Prefix {
    // A capability whose name begins so, and how many bytes there are.
    cap: Cap,
    read: usize,
}

impl Model for Prefix {
    ghost use Rattle.std.specs.Prelude.{ℕ, List, take};
    ghost use Rattle.cred_captext.specs.Names.{lowercase_name, IsNamePrefix};

    ghost Value = { List ℕ };

    ghost view = { λ f. take f.read (lowercase_name f.cap) };

    ghost invariant = { λ f. IsNamePrefix f.cap f.read };
}

/// The name of a capability, in capital letters.
pub fn capitals(cap: Cap) -> &'static [u8]
    ensures { map to_ascii_lowercase result.now ≡ lowercase_name cap }
{
    cap_name(cap).as_bytes()
}

/// Whether the first `count` bytes of the two names are the same.
fn share(one: Cap, other: Cap, count: usize) -> bool
    requires { count ≤ length (lowercase_name one) }
    ensures { IsTrue result
        ↔ (take count (lowercase_name other) ≡ take count (lowercase_name one)) }
{
    let one = capitals(one);
    let other = capitals(other);
    count <= other.len() && one[..count].eq_ignore_ascii_case(&other[..count])
}

/// Whether the name has this byte at this place.
fn has_at(cap: Cap, place: usize, byte: u8) -> bool
    ensures { IsTrue result ↔ (slice_get (lowercase_name cap) place ≡ Some byte) }
{
    match capitals(cap).get(place) {
        Some(capital) => capital.to_ascii_lowercase() == byte,
        None => false,
    }
}

impl Prefix {
    /// No byte of a name.
    pub fn none() -> Prefix
        ensures { result ≡ [] }
    {
        Prefix {
            cap: Cap::KILL,
            read: 0,
        }
    }

    /// The capability whose name these bytes are.
    pub fn cap(&self) -> Option<Cap>
        ensures { result ≡ cap_of_lowercase_name self.now }
    {
        if self.read == capitals(self.cap).len() {
            Some(self.cap)
        } else {
            None
        }
    }

    /// Whether the name of a capability begins with these bytes and one more.
    fn continues(&self, cap: Cap, byte: u8) -> bool
        ensures { result ≡ begins_with (lowercase_name cap) (self.now ++ byte ∷ []) }
    {
        share(self.cap, cap, self.read) && has_at(cap, self.read, byte)
    }

    /// These bytes and one more, if some name begins so.
    pub fn longer(&self, byte: u8) -> Option<Prefix>
        ensures { result
            ≡ (if begins_name (self.now ++ byte ∷ []) then Some (self.now ++ byte ∷ []) else None) }
    {
        for number in 0..41 {
            let cap = Cap::new(number)?;
            if self.continues(cap, byte) {
                return Some(Prefix {
                    cap,
                    read: self.read + 1,
                });
            }
        }
        None
    }
}
