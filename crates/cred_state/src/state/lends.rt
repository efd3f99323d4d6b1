//! What is lent for an event that is decided on credentials.
ghost use Rattle.std.specs.Prelude.{◌≡◌, ◌∷◌, [], is_some, None, IfSome, IfNone};
ghost use Rattle.std.specs.Option.{option_and_then, option_map};
ghost use Rattle.cred_model.specs.State.{hold_of, numbered, prepared_of};
ghost use Rattle.cred_sound.specs.Sound.{IsSound};
ghost use Rattle.cred_work.specs.Decisions.{undecided, work_event, AreOf};
ghost use Rattle.cred_tables.specs.Kept.{cred_under, seen_in, IsInUse};
ghost use Rattle.cred_tables.specs.Out.{AreHome, AreOut, hold_token, tokens_in, needs_tokens};
ghost use Rattle.cred_state.specs.TokensOut.{loans_of, hold_loan, with_hold, with_kept};
ghost use Rattle.cred_state.specs.TokensOut.{needs_decision, with_lent, IsHome, IsKeptBy, IsNs};
ghost use Rattle.cred_state.specs.TokensOut.{IsStanding};

use crate::state::State;
use cred_event::{Change, Event};
use cred_hold::{Cells, HoldToken, Writer};
use cred_tables::NumberedSlot;
use cred_work::Pending;

/// The namespace of an event that is decided by none. No script declares it, so that its root ids,
/// of which there are none, take no memory where they are copied.
const NO_NS: u32 = u32::MAX;

impl State {
    /// Lends what the event is decided on, under the labels that it names: nothing where it isn't
    /// decided so, or where a label that it names isn't there. It takes no memory.
    // Inlined: a call would move what it takes or gives, which is large.
    #[inline(always)]
    pub fn lend(&mut self, cells: &Cells, event: &Event) -> Option<Pending>
        requires own { self.old.words.id ≡ cells.now }
        requires sound { IsSound self.old.state }
        requires out { AreOut self.old.state self.old.words.out }
        requires home { AreHome event.now self.old.words.out }
        ensures waits { is_some result ≡ needs_tokens self.old.state event.now }
        ensures of { IfSome result (λ lent. AreOf cells.now lent × (work_event lent ≡ event.now)) }
        ensures tokens { IfSome result (λ lent. loans_of lent
            ≡ tokens_in self.old.state event.now) }
        ensures bare { IfSome result (λ lent. undecided lent ≡ lent) }
        ensures lent { IfSome result (λ lent. self.new ≡ with_lent self.old lent) }
        ensures none { IfNone result (self.new ≡ self.old) }
    {
        match event {
            Event::Ask { label, query } => Some(Pending::Asking {
                hold: self.lend_hold(cells, *label)?,
                query: *query,
                told: None,
            }),
            Event::OpenFile {
                hold,
                file,
                want,
                fd,
            } => Some(Pending::Opening {
                hold: self.lend_hold(cells, *hold)?,
                file: *file,
                want: *want,
                fd: *fd,
                may: None,
            }),
            Event::Signal {
                from,
                hold,
                to,
                target,
            } => {
                let own = self.held(*hold)?;
                let other = self.held(*target)?;
                Some(Pending::Signalling {
                    from: *from,
                    hold: self.lend_found(cells, *hold, own),
                    to: *to,
                    target: self.lend_found(cells, *target, other),
                    may: None,
                })
            }
            Event::Alter { label, change } => {
                let (base, writer) = self.lend_kept(cells, *label)?;
                Some(Pending::Altering {
                    base,
                    writer,
                    change: *change,
                    made: None,
                })
            }
            _ => None,
        }
    }

    /// The user namespace of the base of a label. `None` where it prepares nothing.
    pub fn base_ns(&mut self, cells: &Cells, label: u32) -> Option<u32>
        requires own { self.old.words.id ≡ cells.now }
        ensures ns { result
            ≡ option_and_then (λ p. option_map (λ base. base.cred.ns)
            (numbered self.old.state.creds p.base)) (prepared_of self.old.state label) }
        ensures same { self.new ≡ self.old }
    {
        let base = self.base(label)?;
        Some(self.read_ns(cells, base))
    }

    /// The user namespace whose root ids an event is decided by: for a change that of `change_ns`,
    /// and for others none that a script declares. `None` where it isn't decided on credentials.
    pub fn deciding_ns(&mut self, cells: &Cells, event: &Event) -> Option<u32>
        requires own { self.old.words.id ≡ cells.now }
        ensures decided { is_some result ≡ needs_decision event.now }
        ensures ns { IfSome result (IsNs self.old.state event.now) }
        ensures same { self.new ≡ self.old }
    {
        match event {
            Event::Alter { label, change } => Some(self.change_ns(cells, *label, *change)),
            Event::Ask { .. } | Event::Signal { .. } | Event::OpenFile { .. } => Some(NO_NS),
            _ => None,
        }
    }

    /// The user namespace whose root ids a change of the label is decided by: for an execve that of
    /// the base, and for others none that a script declares.
    pub(super) fn change_ns(&mut self, cells: &Cells, label: u32, change: Change) -> u32
        requires own { self.old.words.id ≡ cells.now }
        ensures ns { IsNs self.old.state (Event.Alter label change) result }
        ensures same { self.new ≡ self.old }
    {
        match change {
            Change::Exec { .. } => self.base_ns(cells, label).unwrap_or(0),
            _ => NO_NS,
        }
    }

    /// The user namespace of the credential that was found. Something refers to it.
    pub(super) fn read_ns(&mut self, cells: &Cells, found: NumberedSlot) -> u32
        requires own { self.old.words.id ≡ cells.now }
        requires found { numbered self.old.state.creds found.number
            ≡ Some (seen_in self.old.state.creds found) }
        requires used { IsInUse self.old.state found.number }
        ensures ns { result ≡ (cred_under self.old.state.creds found.number).ns }
        ensures same { self.new ≡ self.old }
    {
        self.master.read_ns(cells, found.slot)
    }

    /// Lends what the label holds. `None` where it holds nothing.
    fn lend_hold(&mut self, cells: &Cells, label: u32) -> Option<HoldToken>
        requires own { self.old.words.id ≡ cells.now }
        requires sound { IsSound self.old.state }
        ensures waits { is_some result ≡ is_some (hold_of self.old.state label) }
        ensures of { IfSome result (λ hold. (hold.id ≡ cells.now) × (hold.label ≡ label)) }
        ensures tokens { IfSome result (λ hold.
            hold_loan hold ∷ [] ≡ hold_token self.old.state label) }
        ensures lent { IfSome result (λ hold. self.new ≡ with_hold self.old hold) }
        ensures standing { IfSome result (λ _. IsStanding self.old) }
        ensures none { IfNone result (self.new ≡ self.old) }
    {
        let found = self.held(label)?;
        Some(self.lend_found(cells, label, found))
    }

    /// Lends, under this label, the credential that was found. Something refers to it.
    pub(super) fn lend_found(&mut self, cells: &Cells, label: u32, found: NumberedSlot) -> HoldToken
        requires own { self.old.words.id ≡ cells.now }
        requires found { numbered self.old.state.creds found.number
            ≡ Some (seen_in self.old.state.creds found) }
        requires used { IsInUse self.old.state found.number }
        ensures hold { result ≡ record {
          id = cells.now;
          label = label;
          slot = found.slot;
          cred = cred_under self.old.state.creds found.number;
        } }
        ensures lent { self.new ≡ with_hold self.old result }
        ensures standing { IsStanding self.old }
    {
        self.master.lend(cells, label, found.slot)
    }

    /// Lends the base of what the label prepares, and a writer of the slot that is kept for it.
    /// `None` where it prepares nothing.
    // Inlined: a call would move what it takes or gives, which is large.
    #[inline(always)]
    pub(super) fn lend_kept(&mut self, cells: &Cells, label: u32) -> Option<(HoldToken, Writer)>
        requires own { self.old.words.id ≡ cells.now }
        requires sound { IsSound self.old.state }
        requires out { AreOut self.old.state self.old.words.out }
        requires home { IsHome label self.old.words.out }
        ensures kept { IfSome result (λ kept.
            IsKeptBy cells.now self.old.state label kept.0 kept.1) }
        ensures lent { IfSome result (λ kept.
            self.new ≡ with_kept self.old kept.0 kept.1) }
        ensures standing { IfSome result (λ _. IsStanding self.old) }
        ensures none { IfNone result
            ((self.new ≡ self.old) × (prepared_of self.old.state label ≡ None)) }
    {
        let base = self.base(label)?;
        let slot = self.prepared.get(label)?.slot;
        let hold = self.master.lend(cells, label, base.slot);
        let writer = self.master.lend_writer(cells, label, slot);
        Some((hold, writer))
    }
}
