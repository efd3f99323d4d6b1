//! The bits of a mode (inode(7), "The file type and mode").
ghost use Rattle.std.specs.Prelude.{◌≡◌, ◌<◌};
ghost use Rattle.cred_rules.specs.Access.{permits, has_execute_bit};
ghost use Rattle.cred_rules.specs.Bits.{has_bit};
ghost use Rattle.cred_rules.specs.Modes.{has_any};
ghost use Rattle.cred_access.specs.Class.{class_place};

use crate::class::Class;
use cred_record::Want;

/// The set-user-ID bit.
pub const SET_USER: u16 = 0o4000;

/// The set-group-ID bit.
pub const SET_GROUP: u16 = 0o2000;

/// The execute bit of the group.
pub const GROUP_EXECUTE: u16 = 0o0010;

/// The three execute bits.
pub const EXECUTE: u16 = 0o0111;

/// How far after a class's execute bit its write bit stands.
const WRITE: u32 = 1;

/// How far after it its read bit stands.
const READ: u32 = 2;

/// Whether one of these bits of the mode is set.
pub fn has_any(mode: u16, bits: u16) -> bool
    ensures { result ≡ has_any mode bits }
{
    mode & bits != 0
}

/// Whether the bit at this place of the mode is set.
#[tactic(auto, using(std::proofs::lemmas::Nat::Bits::shr_and_one))]
fn has_bit(mode: u16, place: u32) -> bool
    requires { place < 16 }
    ensures { result ≡ has_bit mode place }
{
    mode >> place & 1 == 1
}

/// What the mode permits a class.
pub fn permits(mode: u16, class: Class) -> Want
    ensures { result ≡ permits mode (class_place class) }
{
    let execute = class.place();
    Want {
        r: has_bit(mode, execute + READ),
        w: has_bit(mode, execute + WRITE),
        x: has_bit(mode, execute),
    }
}

/// Whether the mode permits some class to execute.
pub fn has_execute_bit(mode: u16) -> bool
    ensures { result ≡ has_execute_bit mode }
{
    [Class::Owner, Class::Group, Class::Others]
        .iter()
        .any(|class| has_bit(mode, class.place()))
}
