//! The table of words, the tokens, and one call for each kind of step.
ghost use Rattle.std.specs.Prelude.{◌≡◌, ◌<◌, [], None, Some, true, false, IfOk, IfSome, IsSome};
ghost use Rattle.std.specs.Prelude.{replicate, slice_index, slice_set};
ghost use Rattle.cred_words.specs.Lists.{IsTaken};
ghost use Rattle.cred_words.specs.Size.{width, count, total, word_place};
ghost use Rattle.cred_words.specs.Words.{ledger_with, ledger_of, first_master, lent_token};
ghost use Rattle.cred_words.specs.Words.{after_lend};
ghost use Rattle.cred_words.specs.Words.{after_back, put_words, LoanFits, as_loan};
ghost use Rattle.cred_words.specs.Words.{without_ticket};
ghost use Rattle.cred_words.specs.Words.{token_of};
ghost use Rattle.cred_words.specs.declared.view.View.TheVariants.{Lent};
ghost use Rattle.cred_words.specs.Seen.{IsSealedSlot, NoTokenIsOn};

use crate::rule::{
    LearnsToken, LendsHold, LendsWriter, Loads, Order, ReturnsToken, Stores, WordRule,
};
use crate::view::View;
use atomic_table::{Seat, Table};
use cred_ids::limits;
use cred_record::WORDS;
use std::alloc::{AllocError, Global};
use std::marker::{Brand, Model};

/// The shared words: a guide, which is 0, and `WORDS` words for each of `SLOTS` slots. Threads
/// share a `&Cells`. Contracts see which table it is.
#[derive(Drop)]
pub struct Cells {
    table: Table<(), View, (), WordRule, Global>,
}

impl Model for Cells {
    ghost use Rattle.std.specs.Prelude.{◌≡◌};
    ghost use Rattle.atomic_table.specs.Seated.{TableId, table_id_coded};
    ghost use Rattle.cred_words.specs.Size.{total};

    ghost Value = { TableId };

    ghost coded = { table_id_coded };

    ghost view = { λ c. c.table.shared.table_id };

    ghost invariant = { λ c. c.table.shared.table_id.words ≡ total };
}

/// The master's token, of which a table has one. It has no bytes. Contracts see its table and its
/// ledger.
#[derive(Drop)]
pub struct MasterSeat {
    seat: Seat<(), View>,
}

impl Model for MasterSeat {
    ghost use Rattle.std.specs.Prelude.{◌≡◌, [], length};
    ghost use Rattle.cred_words.specs.Seen.{MasteredWords};

    ghost Value = { MasteredWords };

    ghost use Rattle.cred_words.specs.Size.{count};
    ghost use Rattle.cred_words.specs.Words.{ledger_of};
    ghost use Rattle.cred_words.specs.declared.view.View.TheVariants.{Master as IsMaster};

    ghost view = { λ m. record { id = m.seat.table_id; ledger = ledger_of m.seat.me.0 } };

    ghost invariant = { λ m. (m.seat.id ≡ 0)
        × (m.seat.me ≡ (IsMaster (ledger_of m.seat.me.0), []))
        × (length (ledger_of m.seat.me.0).slots ≡ count) };
}

/// A hold that is lent. It has no bytes. Contracts see its table and its token.
#[derive(Drop)]
pub struct HoldSeat {
    seat: Seat<(), View>,
}

impl Model for HoldSeat {
    ghost use Rattle.std.specs.Prelude.{◌≡◌, ◌<◌, [], false};
    ghost use Rattle.cred_words.specs.Seen.{Lending};

    ghost Value = { Lending };

    ghost use Rattle.cred_words.specs.Size.{count};
    ghost use Rattle.cred_words.specs.Words.{token_of};
    ghost use Rattle.cred_words.specs.declared.view.View.TheVariants.{Lent};

    ghost view = { λ h. record { id = h.seat.table_id; token = token_of h.seat.me.0 } };

    ghost invariant = { λ h. (h.seat.me ≡ (Lent (token_of h.seat.me.0), []))
        × ((token_of h.seat.me.0).writes ≡ false)
        × ((token_of h.seat.me.0).slot < count) };
}

/// A writer that is lent. It has no bytes. Contracts see its table and its token.
#[derive(Drop)]
pub struct WriterSeat {
    seat: Seat<(), View>,
}

impl Model for WriterSeat {
    ghost use Rattle.std.specs.Prelude.{◌≡◌, ◌<◌, [], true};
    ghost use Rattle.cred_words.specs.Seen.{Lending};

    ghost Value = { Lending };

    ghost use Rattle.cred_words.specs.Size.{count};
    ghost use Rattle.cred_words.specs.Words.{token_of};
    ghost use Rattle.cred_words.specs.declared.view.View.TheVariants.{Lent};

    ghost view = { λ h. record { id = h.seat.table_id; token = token_of h.seat.me.0 } };

    ghost invariant = { λ h. (h.seat.me ≡ (Lent (token_of h.seat.me.0), []))
        × ((token_of h.seat.me.0).writes ≡ true)
        × ((token_of h.seat.me.0).slot < count) };
}

/// Where the word `i` of a slot stands.
fn place_of(slot: u32, i: usize) -> usize
    requires { (slot < count) × (i < width) }
    ensures value { result ≡ word_place slot i }
    ensures within { result < total }
{
    1 + (slot as usize * WORDS + i)
}

/// The number of words of the table.
const TOTAL: usize = 1 + limits::SLOTS * WORDS;

/// What the words of a table are at first.
static ZEROS: [u64; TOTAL] = [0; TOTAL];

/// As many zeros as the table has words. They take no memory of their own: what is copied from
/// them is cleared in place.
fn zeros() -> &'static [u64]
    ensures { result.now ≡ replicate total 0 }
{
    &ZEROS
}

impl Cells {
    /// A table with no slot sealed and no token out, and its master.
    ///
    /// # Errors
    ///
    /// `AllocError` if the allocation of the table fails.
    pub fn make(alloc: Global) -> Result<(Cells, MasterSeat), AllocError>
        ensures { IfOk result (λ r. (r.1.id ≡ r.0) × (r.1.ledger ≡ ledger_of first_master)) }
    {
        let (table, seat) = Table::of_words(alloc, zeros(), &())?;
        Ok((Cells { table }, MasterSeat { seat }))
    }
}

impl MasterSeat {
    /// Lends a hold on a sealed slot. The new token and its loan have the slot's words.
    pub fn lend_hold(&mut self, cells: &Cells, label: u32, slot: u32) -> HoldSeat
        requires own { self.old.id ≡ cells.now }
        requires sealed { IsSealedSlot self.old.ledger slot }
        ensures hold { (result.id ≡ self.old.id)
            × (result.token ≡ lent_token self.old.ledger label slot false) }
        ensures master { (self.new.id ≡ self.old.id)
            × (self.new.ledger ≡ after_lend self.old.ledger label slot false) }
    {
        self.lend_hold_as::<Brand>(cells, label, slot)
    }

    /// The same at an order that has the label and the slot.
    fn lend_hold_as<O: Order>(&mut self, cells: &Cells, label: u32, slot: u32) -> HoldSeat
        requires order { (label ≡ O.label) × (slot ≡ O.slot) }
        requires own { self.old.id ≡ cells.now }
        requires sealed { IsSealedSlot self.old.ledger O.slot }
        ensures hold { (result.id ≡ self.old.id)
            × (result.token ≡ lent_token self.old.ledger O.label O.slot false) }
        ensures master { (self.new.id ≡ self.old.id)
            × (self.new.ledger ≡ after_lend self.old.ledger O.label O.slot false) }
    {
        let _ = (label, slot);
        let shared = &cells.table.shared;
        HoldSeat {
            seat: shared.split_seat::<LendsHold<O>>(&mut self.seat),
        }
    }

    /// Lends a writer on a slot on which no token is out. The slot is no longer sealed; the new
    /// token has the words that stand there.
    pub fn lend_writer(&mut self, cells: &Cells, label: u32, slot: u32) -> WriterSeat
        requires own { self.old.id ≡ cells.now }
        requires within { slot < count }
        requires alone { NoTokenIsOn self.old.ledger slot }
        ensures writer { (result.id ≡ self.old.id)
            × (result.token ≡ lent_token self.old.ledger label slot true) }
        ensures master { (self.new.id ≡ self.old.id)
            × (self.new.ledger ≡ after_lend self.old.ledger label slot true) }
    {
        self.lend_writer_as::<Brand>(cells, label, slot)
    }

    /// The same at an order that has the label and the slot.
    fn lend_writer_as<O: Order>(&mut self, cells: &Cells, label: u32, slot: u32) -> WriterSeat
        requires order { (label ≡ O.label) × (slot ≡ O.slot) }
        requires own { self.old.id ≡ cells.now }
        requires within { O.slot < count }
        requires alone { NoTokenIsOn self.old.ledger O.slot }
        ensures writer { (result.id ≡ self.old.id)
            × (result.token ≡ lent_token self.old.ledger O.label O.slot true) }
        ensures master { (self.new.id ≡ self.old.id)
            × (self.new.ledger ≡ after_lend self.old.ledger O.label O.slot true) }
    {
        let _ = (label, slot);
        let shared = &cells.table.shared;
        WriterSeat {
            seat: shared.split_seat::<LendsWriter<O>>(&mut self.seat),
        }
    }

    /// Returns a hold, which the master keeps aside. `load_after_return` strikes out its loan.
    pub fn return_hold(&mut self, cells: &Cells, hold: HoldSeat)
        requires own { (self.old.id ≡ cells.now) × (hold.id ≡ cells.now) }
        requires empty { self.old.ledger.kept ≡ None }
        ensures { (self.new.id ≡ self.old.id)
            × (self.new.ledger ≡ ledger_with self.old.ledger.slots self.old.ledger.next
            self.old.ledger.loans (Some hold.token)) }
    {
        let HoldSeat { seat } = hold;
        let shared = &cells.table.shared;
        shared.join_seat::<ReturnsToken>(&mut self.seat, seat);
    }

    /// Returns a writer, which the master keeps aside. `load_after_return` strikes out its loan.
    pub fn return_writer(&mut self, cells: &Cells, writer: WriterSeat)
        requires own { (self.old.id ≡ cells.now) × (writer.id ≡ cells.now) }
        requires empty { self.old.ledger.kept ≡ None }
        ensures { (self.new.id ≡ self.old.id)
            × (self.new.ledger ≡ ledger_with self.old.ledger.slots self.old.ledger.next
            self.old.ledger.loans (Some writer.token)) }
    {
        let WriterSeat { seat } = writer;
        let shared = &cells.table.shared;
        shared.join_seat::<ReturnsToken>(&mut self.seat, seat);
    }
}

impl MasterSeat {
    /// The load after a return: takes away the token that is kept aside, and its loan. After a
    /// writer the slot has the writer's words, and is sealed where `put` is true and they are a
    /// credential's.
    pub fn load_after_return(&mut self, cells: &Cells, put: bool)
        requires own { self.old.id ≡ cells.now }
        requires returned { IsSome self.old.ledger.kept }
        ensures taken { IfSome self.old.ledger.kept (λ t.
            IsTaken self.old.ledger.loans (as_loan t)
            (without_ticket t.ticket self.old.ledger.loans)
            × LoanFits self.old.ledger.slots (as_loan t)) }
        ensures master { (self.new.id ≡ self.old.id)
            × IfSome self.old.ledger.kept
            (λ t. self.new.ledger ≡ after_back self.old.ledger t put) }
    {
        self.load_as::<Brand>(cells, put);
    }

    /// The same at an order that has `put`.
    fn load_as<O: Order>(&mut self, cells: &Cells, put: bool)
        requires order { put ≡ O.put }
        requires own { self.old.id ≡ cells.now }
        requires returned { IsSome self.old.ledger.kept }
        ensures taken { IfSome self.old.ledger.kept (λ t.
            IsTaken self.old.ledger.loans (as_loan t)
            (without_ticket t.ticket self.old.ledger.loans)
            × LoanFits self.old.ledger.slots (as_loan t)) }
        ensures master { (self.new.id ≡ self.old.id)
            × IfSome self.old.ledger.kept
            (λ t. self.new.ledger ≡ after_back self.old.ledger t O.put) }
    {
        let _ = put;
        let shared = &cells.table.shared;
        shared.load::<LearnsToken<O>>(&mut self.seat, 0);
    }
}

/// Loads the word `i` of the slot of a token, by the token's seat.
fn load_from(cells: &Cells, seat: &mut Seat<(), View>, slot: u32, i: usize) -> u64
    requires own { seat.old.table_id ≡ cells.now }
    requires lent { seat.old.me ≡ (Lent (token_of seat.old.me.0), []) }
    requires slot { (slot ≡ (token_of seat.old.me.0).slot) × (slot < count) }
    requires within { i < width }
    ensures value { result ≡ slice_index (token_of seat.old.me.0).words i }
    ensures same { (seat.new.table_id ≡ seat.old.table_id) × (seat.new.me ≡ seat.old.me) }
{
    let shared = &cells.table.shared;
    shared.load::<Loads>(seat, place_of(slot, i))
}

/// Loads the word `i` of the slot that is held. It waits for nobody.
pub fn load_word(cells: &Cells, hold: &mut HoldSeat, slot: u32, i: usize) -> u64
    requires own { hold.old.id ≡ cells.now }
    requires slot { slot ≡ hold.old.token.slot }
    requires within { i < width }
    ensures value { result ≡ slice_index hold.old.token.words i }
    ensures same { hold.new ≡ hold.old }
{
    load_from(cells, &mut hold.seat, slot, i)
}

/// Loads the word `i` of the slot that is written. It waits for nobody.
pub fn load_own_word(cells: &Cells, writer: &mut WriterSeat, slot: u32, i: usize) -> u64
    requires own { writer.old.id ≡ cells.now }
    requires slot { slot ≡ writer.old.token.slot }
    requires within { i < width }
    ensures value { result ≡ slice_index writer.old.token.words i }
    ensures same { writer.new ≡ writer.old }
{
    load_from(cells, &mut writer.seat, slot, i)
}

/// Stores the word `i` of the slot that is written. It waits for nobody.
pub fn store_word(cells: &Cells, writer: &mut WriterSeat, slot: u32, i: usize, word: u64)
    requires own { writer.old.id ≡ cells.now }
    requires slot { slot ≡ writer.old.token.slot }
    requires within { i < width }
    ensures { (writer.new.id ≡ writer.old.id)
        × (writer.new.token
        ≡ put_words writer.old.token (slice_set writer.old.token.words i word)) }
{
    let shared = &cells.table.shared;
    let seat = &mut writer.seat;
    shared.store::<Stores>(seat, place_of(slot, i), word);
}

/// Stores the word `i` of the slot that is written, unless it stands there already: a load costs
/// less than a store that is seen by all threads in one order. It waits for nobody.
pub fn settle_word(cells: &Cells, writer: &mut WriterSeat, slot: u32, i: usize, word: u64)
    requires own { writer.old.id ≡ cells.now }
    requires slot { slot ≡ writer.old.token.slot }
    requires within { i < width }
    ensures { (writer.new.id ≡ writer.old.id)
        × (writer.new.token
        ≡ put_words writer.old.token (slice_set writer.old.token.words i word)) }
{
    if load_own_word(cells, writer, slot, i) != word {
        store_word(cells, writer, slot, i, word);
    }
}
