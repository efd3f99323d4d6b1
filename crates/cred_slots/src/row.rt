//! What is counted in one slot.
ghost use Rattle.std.specs.Prelude.{◌≡◌, map};
ghost use Rattle.cred_slots.specs.Rows.{without_late};

/// The references to the number that was sealed last in a slot. No other number that stands there
/// has any.
#[derive(Clone, Copy, Debug)]
pub struct Row {
    pub number: u64,
    /// How many references there are that weren't given up.
    pub held: u64,
    /// How many were given up since the last sweep.
    pub late: u64,
}

/// Nothing refers to a number in the slot.
pub const UNUSED: Row = Row {
    number: 0,
    held: 0,
    late: 0,
};

/// Drops what was given up.
pub fn forget_late(rows: &mut [Row])
    ensures { rows.new ≡ map without_late rows.old }
{
    for row in rows.iter_mut() {
        row.late = 0;
    }
}
