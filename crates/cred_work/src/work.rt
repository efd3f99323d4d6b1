//! What a work has: what is lent for an event, with the event's line and all else that its decision
//! needs.
ghost use Rattle.std.specs.Prelude.{◌≡◌, IfOk};
ghost use Rattle.cred_work.specs.Work.{work_of};

use crate::pending::Pending;
use cred_ids::NoMemory;
use cred_record::{FileInfo, IdList};
use std::alloc::Global;
use std::marker::Model;

/// The fields of a work, which are large, or of a `Request`, for which nothing is lent.
#[derive(Drop)]
pub(crate) struct WorkFields {
    pub(crate) line: u32,
    pub(crate) file: Option<FileInfo>,
    pub(crate) chain: IdList,
    pub(crate) lent: Option<Pending>,
}

/// What an event is decided by besides credentials, with its line: copies of the file that it
/// names, if it names one, and of the root ids of the base's user namespace and of that one's
/// ancestors, the nearest first. It stands in memory of its own, in which there is room for what is
/// lent. Contracts see the record `Request` of `specs/Work.antt`.
pub struct Request {
    parts: Box<WorkFields>,
}

impl Model for Request {
    ghost use Rattle.cred_work.specs.Work as spec;

    ghost Value = { spec.Request };

    ghost view = { λ a. record {
      line = a.parts.value.line;
      file = a.parts.value.file;
      chain = a.parts.value.chain;
    } };
}

/// Written out, so that it is proved here alone: with a derived one, each crate above that drops it
/// would prove all parts again.
impl Drop for Request {
    fn drop(self) {
        let Request { parts } = self;
        drop(parts);
    }
}

impl Request {
    /// What is asked for this line, with its file and its root ids.
    ///
    /// # Errors
    ///
    /// `NoMemory` if the allocation of its memory fails.
    pub fn new(
        alloc: Global,
        line: u32,
        file: Option<FileInfo>,
        chain: IdList,
    ) -> Result<Request, NoMemory>
        ensures { IfOk result (λ asked. asked ≡ record {
          line = line;
          file = file;
          chain = chain;
        }) }
    {
        let parts = WorkFields {
            line,
            file,
            chain,
            lent: None,
        };
        Ok(Request {
            parts: Box::new(alloc, parts)?,
        })
    }

    /// The same for another line, in the memory of this one, whose file and root ids are dropped.
    /// No memory is taken.
    // Inlined: a call would move what it takes, which is large.
    #[inline(always)]
    pub fn reuse(self, line: u32, file: Option<FileInfo>, chain: IdList) -> Request
        ensures { result ≡ record {
          line = line;
          file = file;
          chain = chain;
        } }
    {
        let Request { mut parts } = self;
        let its = parts.as_mut();
        its.line = line;
        its.file = file;
        its.chain = chain;
        Request { parts }
    }

    /// The line whose event it is.
    pub fn line(&self) -> u32
        ensures { result ≡ self.now.line }
    {
        self.parts.line
    }

    /// Its memory.
    fn into_parts(self) -> Box<WorkFields>
        ensures { (result.value.line ≡ self.line) × (result.value.file ≡ self.file)
            × (result.value.chain ≡ self.chain) }
    {
        let Request { parts } = self;
        parts
    }
}

/// An event that waits for its decision: the tokens that are lent for it, with the decision once it
/// is made, and what it is decided by. Contracts see the record `Work` of `specs/Work.antt`. To
/// move one is cheap: it stands in memory of its own.
pub struct Work {
    pub(crate) parts: Box<WorkFields>,
}

impl Model for Work {
    ghost use Rattle.cred_work.specs.Work as spec;

    ghost Value = { spec.Work };

    ghost view = { λ w. record {
      line = w.parts.value.line;
      file = w.parts.value.file;
      chain = w.parts.value.chain;
      lent = spec.pending_or_none w.parts.value.lent;
    } };

    ghost use Rattle.std.specs.Prelude.{IsSome};

    ghost invariant = { λ w. IsSome w.parts.value.lent };
}

/// Written out, as that of `Request`.
impl Drop for Work {
    fn drop(self) {
        let Work { parts } = self;
        drop(parts);
    }
}

impl Work {
    /// The work of the event for which these tokens are lent. No memory is taken.
    // Inlined: a call would move what it takes or gives, which is large.
    #[inline(always)]
    pub fn of(asked: Request, lent: Pending) -> Work
        ensures { result ≡ work_of asked lent }
    {
        let mut parts = asked.into_parts();
        parts.as_mut().lent = Some(lent);
        Work { parts }
    }

    /// What it was made of. No memory is taken.
    // Inlined: a call would move what it takes or gives, which is large.
    #[inline(always)]
    pub fn into_parts(self) -> (Request, Pending)
        ensures { self ≡ work_of result.0 result.1 }
    {
        let Work { mut parts } = self;
        let Some(lent) = parts.as_mut().lent.take() else {
            unreachable!()
        };
        (Request { parts }, lent)
    }

    /// The line whose event waits.
    pub fn line(&self) -> u32
        ensures { result ≡ self.now.line }
    {
        self.parts.line
    }
}
