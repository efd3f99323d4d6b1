//! The tables of keywords: which words may begin a line, and name a call, a change and a question.
ghost use Rattle.std.specs.Prelude.{◌≡◌};
ghost use Rattle.cred_spelling.specs.Names as spec;

use crate::kinds::{SpelledTask, Spelling};
use crate::spellings::is;
use crate::table::named;
use cred_ids::Kind;

/// What a line is.
#[derive(Clone, Copy)]
pub enum Form {
    /// A first task is created.
    Init,
    /// A file is declared.
    File,
    /// A user namespace is declared.
    Namespace,
    /// A lane is opened or continued.
    Lane,
    /// A call or a question of the task.
    Task(u32),
    /// An event.
    Event(EventName),
}

/// The events that a line may name.
#[derive(Clone, Copy)]
pub enum EventName {
    /// A label takes hold of the credential that a task acts with.
    Take,
    /// A label takes hold of the credential that a task is acted on by.
    TakeReal,
    /// A label takes hold of the credential that an open file was opened by.
    TakeFile,
    /// A label drops its hold.
    Release,
    /// A question about what a label holds.
    Ask,
    /// A label prepares a credential.
    Prepare,
    /// A prepared credential is changed.
    Alter,
    /// A prepared credential becomes its task's.
    Commit,
    /// A prepared credential is given up.
    Abort,
    /// A task acts with another credential.
    Override,
    /// A task acts with what it did before.
    Revert,
    /// A task begins a call.
    Begin,
    /// The next thread that waits takes its step in a call.
    Act,
    /// All that was given up is dropped.
    Sweep,
}

/// The id calls that a line may name.
#[derive(Clone, Copy)]
pub enum IdName {
    SetUid,
    SetEuid,
    SetReuid,
    SetResuid,
    SetGid,
    SetEgid,
    SetRegid,
    SetResgid,
    SetGroups,
}

/// The changes of a credential that a line may name.
#[derive(Clone, Copy)]
pub enum ChangeName {
    SetFs(Kind),
    Capset,
    BoundDrop,
    AmbRaise,
    AmbLower,
    AmbClear,
    Bits,
    KeepCaps,
    NoNewPrivs,
    Exec,
    /// What access(2) decides on, which is an event's alone.
    Access,
}

/// The questions that a line may name.
#[derive(Clone, Copy)]
pub enum QueryName {
    Ids,
    Caps,
    Groups,
    Bits,
    Capable,
    Bset,
    AmbIs,
    Check,
}

/// The calls that a line may name which are neither id calls, nor changes, nor questions.
#[derive(Clone, Copy)]
pub enum OtherName {
    Open,
    Close,
    /// A question about the opener of a file.
    Fcap,
    Access,
    Signal,
    Spawn,
    Fork,
    Exit,
    /// The task's process is dumpable, or isn't.
    Dumpable,
    /// Whether it is.
    Dumped,
    /// Whether the task may look into another.
    Ptrace,
    /// capset(2), whose sets stand in its record.
    CapsetRaw,
    /// An id call of the one thread.
    Raw,
}

/// The calls on a file that a line may name, but for those by which it is opened or executed.
#[derive(Clone, Copy)]
pub enum FileCallName {
    Chown,
    Chmod,
    SetAttr,
    ClearAttr,
    Stat,
}

/// What a task may do on a line of its own.
#[derive(Clone, Copy)]
pub enum CallName {
    Id(IdName),
    Change(ChangeName),
    Question(QueryName),
    Other(OtherName),
    File(FileCallName),
}

static FORMS: [(&str, Form); 18] = [
    ("init", Form::Init),
    ("file", Form::File),
    ("ns", Form::Namespace),
    ("lane", Form::Lane),
    ("take", Form::Event(EventName::Take)),
    ("takereal", Form::Event(EventName::TakeReal)),
    ("takefile", Form::Event(EventName::TakeFile)),
    ("drop", Form::Event(EventName::Release)),
    ("ask", Form::Event(EventName::Ask)),
    ("prepare", Form::Event(EventName::Prepare)),
    ("change", Form::Event(EventName::Alter)),
    ("commit", Form::Event(EventName::Commit)),
    ("abort", Form::Event(EventName::Abort)),
    ("override", Form::Event(EventName::Override)),
    ("revert", Form::Event(EventName::Revert)),
    ("begin", Form::Event(EventName::Begin)),
    ("act", Form::Event(EventName::Act)),
    ("sweep", Form::Event(EventName::Sweep)),
];

static ID_NAMES: [(&str, IdName); 9] = [
    ("setuid", IdName::SetUid),
    ("seteuid", IdName::SetEuid),
    ("setreuid", IdName::SetReuid),
    ("setresuid", IdName::SetResuid),
    ("setgid", IdName::SetGid),
    ("setegid", IdName::SetEgid),
    ("setregid", IdName::SetRegid),
    ("setresgid", IdName::SetResgid),
    ("setgroups", IdName::SetGroups),
];

static CHANGE_NAMES: [(&str, ChangeName); 11] = [
    ("setfsuid", ChangeName::SetFs(Kind::User)),
    ("setfsgid", ChangeName::SetFs(Kind::Group)),
    ("capset", ChangeName::Capset),
    ("capdrop", ChangeName::BoundDrop),
    ("ambraise", ChangeName::AmbRaise),
    ("amblower", ChangeName::AmbLower),
    ("ambclear", ChangeName::AmbClear),
    ("securebits", ChangeName::Bits),
    ("keepcaps", ChangeName::KeepCaps),
    ("nonewprivs", ChangeName::NoNewPrivs),
    ("exec", ChangeName::Exec),
];

static QUERY_NAMES: [(&str, QueryName); 8] = [
    ("ids", QueryName::Ids),
    ("caps", QueryName::Caps),
    ("groups", QueryName::Groups),
    ("bits", QueryName::Bits),
    ("capable", QueryName::Capable),
    ("bset", QueryName::Bset),
    ("ambis", QueryName::AmbIs),
    ("check", QueryName::Check),
];

static OTHER_NAMES: [(&str, OtherName); 13] = [
    ("open", OtherName::Open),
    ("close", OtherName::Close),
    ("fcap", OtherName::Fcap),
    ("access", OtherName::Access),
    ("signal", OtherName::Signal),
    ("spawn", OtherName::Spawn),
    ("fork", OtherName::Fork),
    ("exit", OtherName::Exit),
    ("dumpable", OtherName::Dumpable),
    ("dumped", OtherName::Dumped),
    ("ptrace", OtherName::Ptrace),
    ("capsetraw", OtherName::CapsetRaw),
    ("raw", OtherName::Raw),
];

static FILE_CALL_NAMES: [(&str, FileCallName); 5] = [
    ("chown", FileCallName::Chown),
    ("chmod", FileCallName::Chmod),
    ("setattr", FileCallName::SetAttr),
    ("clearattr", FileCallName::ClearAttr),
    ("stat", FileCallName::Stat),
];

/// The form that a line's first word names: a call or a question of a task is named by the task.
#[tactic(auto, unfolding(crate::specs::Names::forms))]
pub fn form_of(word: &[u8]) -> Option<Form>
    ensures { result ≡ spec.form_of word.now }
{
    if let Some(task) = SpelledTask::of(word) {
        return Some(Form::Task(task));
    }
    named(&FORMS, word)
}

/// The id call that the word names.
#[tactic(auto, unfolding(crate::specs::Names::id_names))]
pub fn id_name(word: &[u8]) -> Option<IdName>
    ensures { result ≡ spec.id_name word.now }
{
    named(&ID_NAMES, word)
}

/// The change of a credential that a call of this name makes.
#[tactic(auto, unfolding(crate::specs::Names::change_names))]
pub fn change_name(word: &[u8]) -> Option<ChangeName>
    ensures { result ≡ spec.change_name word.now }
{
    named(&CHANGE_NAMES, word)
}

/// The change of a credential that an event of this name makes: that of a call, or what access(2)
/// decides on. After a task `access` is that call.
pub fn altered_name(word: &[u8]) -> Option<ChangeName>
    ensures { result ≡ spec.altered_name word.now }
{
    if is(word, "access") {
        return Some(ChangeName::Access);
    }
    change_name(word)
}

/// The question that the word names.
#[tactic(auto, unfolding(crate::specs::Names::query_names))]
pub fn query_name(word: &[u8]) -> Option<QueryName>
    ensures { result ≡ spec.query_name word.now }
{
    named(&QUERY_NAMES, word)
}

/// The call on a file that the word names.
#[tactic(auto, unfolding(crate::specs::Names::file_call_names))]
pub fn file_call_name(word: &[u8]) -> Option<FileCallName>
    ensures { result ≡ spec.file_call_name word.now }
{
    named(&FILE_CALL_NAMES, word)
}

/// What a task does on a line of its own, by its name.
#[tactic(auto, unfolding(crate::specs::Names::other_names))]
pub fn call_name(word: &[u8]) -> Option<CallName>
    ensures { result ≡ spec.call_name word.now }
{
    if let Some(name) = query_name(word) {
        return Some(CallName::Question(name));
    }
    if let Some(name) = id_name(word) {
        return Some(CallName::Id(name));
    }
    if let Some(name) = change_name(word) {
        return Some(CallName::Change(name));
    }
    if let Some(name) = named(&OTHER_NAMES, word) {
        return Some(CallName::Other(name));
    }
    Some(CallName::File(file_call_name(word)?))
}
