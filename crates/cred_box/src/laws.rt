//! No rule leads out of a tight box.
ghost use Rattle.cred_box.specs.Boxes.{AdjustsLeaveIn, ExecvesLeaveIn, FsCallsLeaveIn};
ghost use Rattle.cred_box.specs.Boxes.{IdCallsLeaveIn};

/// No id call that isn't refused leads out of a tight box: setuid(2), seteuid(2), setreuid(2),
/// setresuid(2), their forms for groups, and setgroups(2) (credentials(7)).
///
/// It says nothing of group ids, which a box doesn't bound.
pub fn id_calls_leave_in()
    ensures { IdCallsLeaveIn }
{}

/// Neither setfsuid(2) nor setfsgid(2) leads out of a tight box.
pub fn fs_calls_leave_in()
    ensures { FsCallsLeaveIn }
{}

/// Neither capset(2) nor a call of prctl(2) leads out of a tight box (capabilities(7),
/// "Programmatically adjusting capability sets").
pub fn adjusts_leave_in()
    ensures { AdjustsLeaveIn }
{}

/// No execve(2) of a file that leaves in a tight box leads out of it (capabilities(7),
/// "Transformation of capabilities during execve()").
///
/// It says nothing of a file that may be executed and does not leave in the box.
pub fn execves_leave_in()
    ensures { ExecvesLeaveIn }
{}
