//! The shares that servers hold, with the record of what was asked of each.

ghost use Rattle.std.specs.Prelude.{◌≡◌, ◌<◌, ◌++◌, ◌∷◌, [], ℕ, IfNone, IfOk, IfSome, OnErr, OnOk};
ghost use Rattle.std.specs.Prelude.{length, nat_eq};
ghost use Rattle.std.specs.Prelude.{All, IsTrue, ◌+◌, ◌↔◌};
ghost use Rattle.wire.specs.declared.message.Body.TheVariants.{NoShare};
ghost use Rattle.std.specs.List.{IsDistinct};
ghost use Rattle.wire.specs.Held.{AreRising};
ghost use Rattle.request_record.specs.Asking.{SendsFirst, after_message};
ghost use Rattle.request_record.specs.Record.{asked_more};
ghost use Rattle.request_record.specs.declared.requests.Outcome.TheVariants.{Answered};
ghost use Rattle.request_record.specs.declared.requests.Request.{Request};
ghost use Rattle.download_shares.specs.Choice.{NoneIsFreeBefore};
ghost use Rattle.download_shares.specs.HoldingMoves.{Asks, Begins, Blames, Hears, IsUnasked};
ghost use Rattle.download_shares.specs.HoldingMoves.{IsAmong, IsSame, RetiresAll, Tells, Ticks};
ghost use Rattle.download_shares.specs.HoldingMoves.{held_by};
ghost use Rattle.download_shares.specs.Right.{AreAllHeld, IsReadOf, IsRight};
ghost use Rattle.download_shares.specs.Numbers.{read_count};
ghost use Rattle.download_shares.specs.Table.{IsFree, IsHolding, IsTable, NoneIsFree};
ghost use Rattle.download_shares.specs.Table.{Releases, Retires, Suspends, TakesUp};
ghost use Rattle.download_shares.specs.declared.holding.Holding.{Holding};

use crate::holding::{Blame, Holding};
use crate::table::Table;
use request_record::requests::{Asked, Outcome, Requests};
use share_verify::Check;
use std::alloc::{AllocError, Global};
use std::marker::Model;
use wire::message::{Body, HeldShare, Message, NodeId, ReadLength, StorageIndex};

/// The record of an operation that reads shares, and the holdings that it reads.
#[derive(Drop)]
pub struct Holdings {
    requests: Requests,
    // How many requests ask which shares a server holds. They are the first.
    servers: usize,
    table: Table,
    // The holding that each further request asks for bytes of.
    owners: Vec<usize>,
    blamed: Vec<Blame>,
}

/// What a message brings.
#[derive(Clone, Copy, PartialEq, Eq)]
pub enum Heard {
    /// It counts for nothing.
    Nothing,
    /// Shares that a server holds.
    Held,
    /// That a server has no such share: the holding at this position is gone.
    Gone(usize),
    /// Bytes of the share of the holding at this position, as the answer to the request at this
    /// position.
    Bytes(usize, usize),
}

impl Model for Holdings {
    ghost use Rattle.download_shares.specs.Right.{IsRight};
    ghost use Rattle.download_shares.specs.HoldingState.{HoldingsState, holdings_state};

    ghost Value = { HoldingsState };

    ghost view = { λ s.
        holdings_state s.requests s.servers s.table s.owners.items s.blamed.items };

    ghost invariant = { λ s. IsRight
        (holdings_state s.requests s.servers s.table s.owners.items s.blamed.items) };
}

impl Holdings {
    /// Asks each of these servers, which are distinct, which shares it holds of a file with so many
    /// shares.
    pub fn begin(
        alloc: Global,
        total: u16,
        servers: &[NodeId],
        session: u64,
        now: u64,
    ) -> Result<Holdings, AllocError>
        requires distinct { IsDistinct nat_eq servers.now }
        ensures begins { IfOk result (Begins total servers.now session now) }
        ensures right { IfOk result IsRight }
    {
        Ok(Holdings {
            requests: Requests::begin(alloc, servers, session, now)?,
            servers: servers.len(),
            table: Table::new(alloc, total)?,
            owners: Vec::new(alloc),
            blamed: Vec::new(alloc),
        })
    }

    /// The record.
    pub fn requests(&self) -> &Requests
        ensures value { result.now ≡ self.now.requests }
        ensures right { IsRight self.now }
    {
        &self.requests
    }

    /// Sends the first request to send, as `Requests::send_next`.
    pub fn send_next(&mut self, index: StorageIndex) -> Option<(NodeId, Message)>
        ensures sends { SendsFirst index self.old.requests result self.new.requests }
        ensures others { self.new ≡ record self.old { requests = self.new.requests } }
        ensures right { IsRight self.new }
    {
        self.requests.send_next(index)
    }

    /// The holdings in the order in which they were told.
    pub fn holdings(&self) -> &[Holding]
        ensures value { result.now ≡ self.now.table.holdings }
        ensures right { IsRight self.now }
        ensures table { IsTable self.now.table }
    {
        self.table.holdings()
    }

    /// The shares at servers that failed a check, in the order in which they did.
    pub fn blamed(&self) -> &[Blame]
        ensures { result.now ≡ self.now.blamed }
    {
        self.blamed.as_slice()
    }

    /// Of how many share numbers a holding is read.
    pub fn reading(&self) -> usize
        ensures { result ≡ read_count self.now.table.numbers }
    {
        self.table.reading()
    }

    /// The next one to read: of the lowest share number of which none is read and one may be
    /// chosen. Of several it prefers the one at the server of which the fewest are read, and of
    /// these the first that was told: that is for speed alone, and no clause says so.
    pub fn choose(&self) -> Option<usize>
        ensures free { IfSome result (λ holding.
            (h : Holding) × IsHolding self.now.table holding h × IsFree self.now.table h) }
        ensures lowest { IfSome result (λ holding. (h : Holding)
            → IsHolding self.now.table holding h → NoneIsFreeBefore self.now.table h.share) }
        ensures none { IfNone result (NoneIsFree self.now.table) }
    {
        self.table.choose()
    }

    /// A holding is read from now on. It is free.
    pub fn take_up(&mut self, holding: usize)
        requires { (h : Holding) × IsHolding self.old.table holding h × IsFree self.old.table h }
        ensures takes { TakesUp holding self.old.table self.new.table }
        ensures others { self.new ≡ record self.old { table = self.new.table } }
        ensures right { IsRight self.new }
    {
        self.table.take_up(holding);
    }

    /// A holding is not read any more, and may be read again.
    pub fn release(&mut self, holding: usize)
        requires { holding < length self.old.table.holdings }
        ensures releases { Releases holding self.old.table self.new.table }
        ensures others { self.new ≡ record self.old { table = self.new.table } }
        ensures right { IsRight self.new }
    {
        self.table.release(holding);
    }

    /// Whether a holding may be chosen is changed.
    pub fn suspend(&mut self, holding: usize, suspended: bool)
        requires { holding < length self.old.table.holdings }
        ensures suspends { Suspends suspended holding self.old.table self.new.table }
        ensures others { self.new ≡ record self.old { table = self.new.table } }
        ensures right { IsRight self.new }
    {
        self.table.suspend(holding, suspended);
    }

    /// Asks for bytes of the share of a holding, from an offset on, that were not asked for. Gives
    /// the position of the request.
    pub fn ask(&mut self, holding: usize, offset: u64, len: ReadLength) -> Result<usize, AllocError>
        requires there { holding < length self.old.table.holdings }
        requires unasked { IsUnasked self.old holding offset len }
        ensures position { IfOk result (λ position. position ≡ length self.old.requests.entries) }
        ensures ok { OnOk result (Asks holding offset len self.old self.new) }
        ensures err { OnErr result (self.new ≡ self.old) }
        ensures right { IsRight self.new }
    {
        let position = self.requests.len();
        let held = self.table.holdings()[holding];
        self.owners.reserve(1)?;
        self.requests
            .ask(held.server, Asked::Reading(held.share, offset, len))?;
        self.owners.push_reserved(holding);
        Ok(position)
    }

    /// A holding's share failed a check: it is not left any more.
    pub fn blame(&mut self, holding: usize, check: Check) -> Result<(), AllocError>
        requires { holding < length self.old.table.holdings }
        ensures ok { OnOk result (Blames holding check self.old self.new) }
        ensures err { OnErr result (self.new ≡ self.old) }
        ensures right { IsRight self.new }
    {
        let held = self.table.holdings()[holding];
        self.blamed.push(Blame {
            server: held.server,
            share: held.share,
            check,
        })?;
        self.table.retire(holding);
        Ok(())
    }

    /// Takes a message from a server over, at a second, and says what it brings. On an `Err` some
    /// of the shares that it tells are not among the holdings.
    pub fn take_answer(
        &mut self,
        from: NodeId,
        message: Message,
        now: u64,
    ) -> Result<Heard, AllocError>
        ensures hears { IfOk result (Hears from message now self.old self.new) }
        ensures same { IsSame self.old self.new }
        ensures requests { self.new.requests ≡ after_message from message now self.old.requests }
        ensures right { IsRight self.new }
    {
        let counted = self.requests.counts_at(from, &message);
        let gone = is_missing(&message.body);
        self.requests.take_answer(from, message, now);
        let Some(position) = counted else {
            return Ok(Heard::Nothing);
        };
        if position < self.servers {
            let request = self.requests.request(position);
            tell_all(&mut self.table, request.server, held_by(&request.outcome))?;
            return Ok(Heard::Held);
        }
        let holding = self.owners[position - self.servers];
        if gone {
            self.table.retire(holding);
            return Ok(Heard::Gone(holding));
        }
        Ok(Heard::Bytes(holding, position))
    }

    /// Takes note of a second: a holding of which a request is lost then is not left any more.
    pub fn tick(&mut self, now: u64) -> Result<(), AllocError>
        ensures ok { OnOk result (Ticks now self.old self.new) }
        ensures err { OnErr result (self.new ≡ self.old) }
        ensures right { IsRight self.new }
    {
        let lost = self.requests.tick(now)?;
        retire_owners(&mut self.table, self.servers, &self.owners, &lost);
        Ok(())
    }
}

// The holdings of which the requests at these positions ask for bytes are not left any more.
fn retire_owners(table: &mut Table, servers: usize, owners: &[usize], positions: &[usize])
    requires asked { All (λ position. position < servers + length owners.now) positions.now }
    requires held { All (λ holding. holding < length table.old.holdings) owners.now }
    ensures { RetiresAll (IsAmong servers owners.now positions.now) table.old table.new }
{
    for position in positions {
        if servers <= *position {
            table.retire(owners[*position - servers]);
        }
    }
}

// Whether a message says that there is no such share.
fn is_missing(body: &Body) -> bool
    ensures { IsTrue result ↔ (body.now ≡ NoShare) }
{
    matches!(body, Body::NoShare)
}

// What a request was answered, as shares that its server holds.
fn held_by(outcome: &Outcome) -> &[HeldShare]
    ensures value { result.now ≡ held_by outcome.now }
    ensures rising { AreRising result.now }
{
    match outcome {
        Outcome::Answered(kept) => match kept.told() {
            Some(body) => held_in(body),
            None => &[],
        },
        _ => &[],
    }
}

// What a message says that its server holds.
fn held_in(body: &Body) -> &[HeldShare]
    ensures value { result.now ≡ held_by (Answered body.now) }
    ensures rising { AreRising result.now }
{
    match body {
        Body::Have(_, held) => held.as_slice(),
        _ => &[],
    }
}

// The shares that a server tells are holdings.
fn tell_all(table: &mut Table, server: NodeId, held: &[HeldShare]) -> Result<(), AllocError>
    ensures ok { OnOk result (Tells server held.now (length held.now) table.old table.new) }
    ensures some { (count : ℕ) × Tells server held.now count table.old table.new }
{
    for share in held {
        if usize::from(share.share) < table.number_count() {
            table.tell(server, share.share)?;
        }
    }
    Ok(())
}
