//! What was read of a script, and what another line adds to it.
ghost use Rattle.std.specs.Prelude.{◌≡◌, ◌<◌, ◌≤◌, ◌+◌, IfErr, OnOk, length, true, Ok};
ghost use Rattle.cred_ids.specs.Limits.{LAST_LANE, LINE_LIMIT};
ghost use Rattle.cred_model.specs.Script.{SetupFirst};
ghost use Rattle.cred_spelling.specs.Lines.{is_printable};
ghost use Rattle.cred_spelling.specs.Read.{Says, nows};
ghost use Rattle.cred_spelling.specs.Words.{line_words};
ghost use Rattle.cred_grammar.specs.ReadAnswers.{GivesLine, ReadsAs};
ghost use Rattle.cred_grammar.specs.Grammar as grammar;
ghost use Rattle.cred_grammar.specs.Adding.{adding, called, fitting, event_line};
ghost use Rattle.cred_grammar.specs.Grammar.{at_line};
ghost use Rattle.cred_grammar.specs.Forms.{parse_form};
ghost use Rattle.cred_grammar.specs.Reading as spec;
ghost use Rattle.cred_grammar.specs.Sound.{IsTaskLine, IsNextLine, IsOwnLine, IsParsed};
ghost use Rattle.cred_grammar.specs.declared.forms.Parsed.TheVariants as parsed;
ghost use Rattle.cred_event.specs.declared.content.Content.TheVariants.{Nothing};

use crate::calls::content_of;
use crate::forms::{Parsed, event_of, parse_form};
use crate::refusal::{LineRefusal, ScriptRefusal};
use crate::uses::{has_files, has_namespaces, may_change};
use cred_event::Content;
use cred_names::{Lanes, Namespaces};
use cred_script::{DeclaredFiles, Script, ScriptLine, event_actor};
use cred_spelling::{EventName, Form, Reason, form_of, is_comment};
use std::alloc::Global;
use std::marker::Model;

/// What was read of a script.
#[derive(Drop)]
pub(crate) struct Reading {
    files: DeclaredFiles,
    namespaces: Namespaces,
    lines: Vec<ScriptLine>,
    /// A call, an event or a lane line stands there, so that nothing more may be declared.
    is_used: bool,
    lanes: Lanes,
}

impl Model for Reading {
    ghost use Rattle.std.specs.Prelude.{length};
    ghost use Rattle.cred_grammar.specs.Reading as spec;
    ghost use Rattle.cred_grammar.specs.Sound.{AreLinesRead};

    ghost Value = { spec.Reading };

    ghost view = { λ r. record {
      files = r.files;
      namespaces = r.namespaces;
      lines = r.lines.items;
      is_used = r.is_used;
      lanes = r.lanes;
    } };

    ghost invariant = { λ r. AreLinesRead (length r.files) r.namespaces r.lanes r.lines.items };
}

impl Reading {
    /// Before the first line.
    pub(crate) fn nothing(alloc: Global) -> Reading
        ensures { result ≡ spec.nothing }
    {
        Reading {
            files: DeclaredFiles::new(alloc),
            namespaces: Namespaces::new(alloc),
            lines: Vec::new(alloc),
            is_used: false,
            lanes: Lanes::new(alloc),
        }
    }

    /// The script that was read.
    pub(crate) fn into_script(self) -> Script
        ensures value { result ≡ spec.script self }
        ensures setup { SetupFirst result }
    {
        let Reading {
            files,
            namespaces,
            lines,
            ..
        } = self;
        Script::new(files, namespaces, lines)
    }

    /// Adds a line. Whether each of its bytes is printable was tested, and it was split if so. A
    /// bad one is reported by its number.
    pub(crate) fn add_numbered(
        &mut self,
        alloc: Global,
        text: &[u8],
        words: &[&[u8]],
        printable: bool,
    ) -> Result<(), ScriptRefusal>
        requires few { length self.old.lines < LINE_LIMIT }
        requires test { printable ≡ is_printable text.now }
        requires split { printable ≡ true → nows words.now ≡ line_words text.now }
        ensures { ReadsAs (λ _. self.new) result
            (at_line (length self.old.lines + 1) (grammar.add_line self.old text.now)) }
    {
        let number = self.lines.len() as u32 + 1;
        match self.add_line(alloc, text, words, printable) {
            Ok(()) => Ok(()),
            Err(LineRefusal::Bad(reason)) => Err(ScriptRefusal::Bad {
                line: number,
                reason,
            }),
            Err(LineRefusal::Memory) => Err(ScriptRefusal::Memory),
        }
    }

    /// Adds a line.
    #[tactic(auto, unfolding(crate::specs::Grammar::add_line))]
    fn add_line(
        &mut self,
        alloc: Global,
        text: &[u8],
        words: &[&[u8]],
        printable: bool,
    ) -> Result<(), LineRefusal>
        requires few { length self.old.lines < LINE_LIMIT }
        requires test { printable ≡ is_printable text.now }
        requires split { printable ≡ true → nows words.now ≡ line_words text.now }
        ensures { GivesLine (λ _. self.new) result (grammar.add_line self.old text.now) }
    {
        if printable {
            self.add_words(alloc, words)
        } else {
            Err(LineRefusal::Bad(Reason::Byte))
        }
    }

    /// Adds a line of these words. One without words, and a comment, declare nothing and hold
    /// nothing.
    fn add_words(&mut self, alloc: Global, words: &[&[u8]]) -> Result<(), LineRefusal>
        requires few { length self.old.lines < LINE_LIMIT }
        ensures { GivesLine (λ _. self.new) result
            (adding self.old (grammar.parse_words self.old (nows words.now))) }
    {
        match words {
            [] => self.push(Content::Nothing),
            [first, rest @ ..] => {
                if is_comment(first) {
                    self.push(Content::Nothing)
                } else {
                    self.add_full(alloc, first, rest)
                }
            }
        }
    }

    /// Adds a line that isn't empty. What it holds goes the shortest way to its place: most lines
    /// hold something.
    #[tactic(auto, unfolding(crate::specs::Grammar::parse_full, crate::specs::Forms::parse_form))]
    fn add_full(&mut self, alloc: Global, first: &[u8], words: &[&[u8]]) -> Result<(), LineRefusal>
        requires few { length self.old.lines < LINE_LIMIT }
        ensures { GivesLine (λ _. self.new) result
            (adding self.old (grammar.parse_full self.old first.now (nows words.now))) }
    {
        match form_of(first) {
            Some(Form::Task(task)) => self.add_call(alloc, task, words),
            Some(Form::Event(name)) => self.add_event(alloc, name, words),
            Some(form) => self.declare(alloc, form, words),
            None => Err(LineRefusal::Bad(Reason::Word)),
        }
    }

    /// Adds a line of this form.
    // Few lines declare something.
    #[cold]
    #[inline(never)]
    fn declare(&mut self, alloc: Global, form: Form, words: &[&[u8]]) -> Result<(), LineRefusal>
        requires few { length self.old.lines < LINE_LIMIT }
        ensures { GivesLine (λ _. self.new) result
            (adding self.old (fitting self.old (parse_form self.old.files form (nows words.now)))) }
    {
        let line = parse_form(alloc, &self.files, form, words)?;
        self.admits(&line)?;
        self.keep(alloc, line)
    }

    /// Adds a line that is a call or a question of the task.
    fn add_call(&mut self, alloc: Global, task: u32, words: &[&[u8]]) -> Result<(), LineRefusal>
        requires few { length self.old.lines < LINE_LIMIT }
        ensures { GivesLine (λ _. self.new) result
            (adding self.old (fitting self.old (called self.old.files task (nows words.now)))) }
    {
        let content = content_of(alloc, &self.files, task, words)?;
        self.add_held(Some(task), content)
    }

    /// Adds a line that is an event of this name.
    fn add_event(
        &mut self,
        alloc: Global,
        name: EventName,
        words: &[&[u8]],
    ) -> Result<(), LineRefusal>
        requires few { length self.old.lines < LINE_LIMIT }
        ensures { GivesLine (λ _. self.new) result
            (adding self.old (fitting self.old (event_line self.old.files name (nows words.now)))) }
    {
        let event = event_of(alloc, &self.files, name, words)?;
        self.add_held(event_actor(&event), Content::One(event))
    }

    /// Adds a line that holds this, and by which this task acts, if it may stand here.
    #[inline(never)]
    fn add_held(&mut self, by: Option<u32>, content: Content) -> Result<(), LineRefusal>
        requires few { length self.old.lines < LINE_LIMIT }
        requires own { IsOwnLine by content }
        ensures { GivesLine (λ _. self.new) result
            (adding self.old (fitting self.old (Ok (parsed.Holds by content)))) }
    {
        self.may_hold(by, &content)?;
        self.hold(by, content)
    }

    /// Adds a line that was parsed.
    fn keep(&mut self, alloc: Global, line: Parsed) -> Result<(), LineRefusal>
        requires few { length self.old.lines < LINE_LIMIT }
        requires sound { IsParsed self.old line }
        ensures ok { OnOk result (self.new ≡ spec.keep self.old line) }
        ensures err { IfErr result (λ e. e ≡ LineRefusal.Memory) }
    {
        match line {
            Parsed::Empty => self.push(Content::Nothing),
            Parsed::File(file) => {
                self.push(Content::Nothing)?;
                self.files.add(file)?;
                Ok(())
            }
            Parsed::Namespace {
                number,
                root,
                parent,
            } => {
                self.push(Content::Nothing)?;
                self.namespaces.add(alloc, number, root, parent)?;
                Ok(())
            }
            Parsed::Starts(content) => self.push(content),
            Parsed::Lane(number) => self.open_lane(number),
            Parsed::Holds { by, content } => self.hold(by, content),
        }
    }

    /// Adds a line that opens this lane and belongs to it.
    fn open_lane(&mut self, number: u32) -> Result<(), LineRefusal>
        requires few { length self.old.lines < LINE_LIMIT }
        requires lane { (1 ≤ number) × (number ≤ LAST_LANE) }
        ensures ok { OnOk result (self.new ≡ spec.push (spec.in_lane self.old number) Nothing) }
        ensures err { IfErr result (λ e. e ≡ LineRefusal.Memory) }
    {
        self.is_used = true;
        self.lanes.open(number);
        self.push(Content::Nothing)
    }

    /// Adds a line that holds this, and by which this task acts.
    #[inline(always)]
    fn hold(&mut self, by: Option<u32>, content: Content) -> Result<(), LineRefusal>
        requires few { length self.old.lines < LINE_LIMIT }
        requires sound { IsTaskLine self.old by content }
        ensures ok { OnOk result
            (self.new ≡ spec.push (spec.used_by self.old by content) content) }
        ensures err { IfErr result (λ e. e ≡ LineRefusal.Memory) }
    {
        self.is_used = true;
        self.lanes.name(by, &content)?;
        self.push(content)
    }

    /// Adds a line that holds this.
    #[inline(always)]
    fn push(&mut self, content: Content) -> Result<(), LineRefusal>
        requires few { length self.old.lines < LINE_LIMIT }
        requires sound { IsNextLine self.old content }
        ensures ok { OnOk result (self.new ≡ spec.push self.old content) }
        ensures err { IfErr result (λ e. e ≡ LineRefusal.Memory) }
    {
        let lane = self.lanes.current();
        self.lines.push(ScriptLine { lane, content })?;
        Ok(())
    }

    /// Tests whether the line may stand here: a declaration may not after a call, an event or a
    /// lane line. Then the names are tested, and then the lanes.
    fn admits(&self, line: &Parsed) -> Result<(), Reason>
        ensures { Says (λ x. x) result (spec.admits self.now line.now) }
    {
        if is_declaration(line) && self.is_used {
            Err(Reason::Order)
        } else if !self.has_names(line) {
            Err(Reason::Name)
        } else if !self.is_apart(line) {
            Err(Reason::Lane)
        } else {
            Ok(())
        }
    }

    /// Tests whether a line that holds this, and by which this task acts, may stand here: the names
    /// are tested before the lanes.
    fn may_hold(&self, by: Option<u32>, content: &Content) -> Result<(), Reason>
        ensures { Says (λ x. x) result (spec.admits self.now (parsed.Holds by content.now)) }
    {
        if !has_namespaces(&self.namespaces, content) || !has_files(&self.files, content) {
            Err(Reason::Name)
        } else if !may_change(&self.lanes, content) || !self.lanes.may_name(by, content) {
            Err(Reason::Lane)
        } else {
            Ok(())
        }
    }

    /// Whether the names that the line uses are declared, and the one that it declares is not.
    fn has_names(&self, line: &Parsed) -> bool
        ensures { result ≡ spec.has_names self.now line.now }
    {
        match line {
            Parsed::Empty | Parsed::Lane(_) => true,
            Parsed::File(file) => self.files.place_of(&file.name).is_none(),
            Parsed::Namespace { number, parent, .. } => {
                self.namespaces.has(*parent) && !self.namespaces.has(*number)
            }
            Parsed::Starts(content) | Parsed::Holds { content, .. } => {
                has_namespaces(&self.namespaces, content) && has_files(&self.files, content)
            }
        }
    }

    /// Whether the line changes no file outside the setup, and no line of another lane but the
    /// setup has named the task that acts by it, or a label of it.
    fn is_apart(&self, line: &Parsed) -> bool
        ensures { result ≡ spec.is_apart self.now line.now }
    {
        match line {
            Parsed::Holds { by, content } => {
                may_change(&self.lanes, content) && self.lanes.may_name(*by, content)
            }
            _ => true,
        }
    }
}

/// Whether the line declares something, so that it has to stand before all calls, events and lane
/// lines.
fn is_declaration(line: &Parsed) -> bool
    ensures { result ≡ spec.is_declaration line.now }
{
    matches!(
        line,
        Parsed::File(_) | Parsed::Namespace { .. } | Parsed::Starts(_)
    )
}
