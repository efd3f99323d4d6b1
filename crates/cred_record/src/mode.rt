//! What a check of one task's access to another asks by.

/// Which of its ids, and which of its capability sets, a task asks by to look into another
/// (ptrace(2), "Ptrace access mode checking").
#[derive(Clone, Copy, PartialEq, Eq, Debug)]
pub enum PtraceMode {
    /// Its filesystem ids and its effective set: PTRACE_MODE_FSCREDS, as for `/proc/PID/exe`.
    Fs,
    /// Its real ids and its permitted set: PTRACE_MODE_REALCREDS, as for PTRACE_ATTACH.
    Real,
}
