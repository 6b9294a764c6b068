//! The shares at servers that were told, and which of these are left and read.

ghost use Rattle.std.specs.Prelude.{◌≡◌, ◌<◌, ◌++◌, ◌∷◌, [], ℕ, IfNone, IfOk, IfSome, OnErr, OnOk};
ghost use Rattle.std.specs.Prelude.{length};
ghost use Rattle.std.specs.Prelude.{All, Contains, Some, true, false, is_some};
ghost use Rattle.download_shares.specs.Choice.{Chooses, NoneIsFreeBefore};
ghost use Rattle.download_shares.specs.Numbers.{no_holding, read_count, with_position};
ghost use Rattle.download_shares.specs.Table.{ChangesNumber, IsFree, IsHolding, IsTable};
ghost use Rattle.download_shares.specs.Table.{NoneIsFree};
ghost use Rattle.download_shares.specs.Table.{Releases, Retires, Suspends, TakesUp, told_one};
ghost use Rattle.download_shares.specs.declared.holding.Holding.{Holding};

use crate::holding::Holding;
use crate::loads::Loads;
use crate::numbers::Number;
use std::alloc::{AllocError, Global};
use std::marker::Model;
use wire::message::NodeId;

/// The holdings in the order in which they were told, and for each share number those of it that
/// are left.
#[derive(Drop)]
pub(crate) struct Table {
    holdings: Vec<Holding>,
    numbers: Vec<Number>,
    // Of how many numbers a holding is read.
    reading: usize,
    loads: Loads,
}

impl Model for Table {
    ghost use Rattle.std.specs.Prelude.{◌≡◌};
    ghost use Rattle.download_shares.specs.Numbers.{read_count};
    ghost use Rattle.download_shares.specs.HoldingState.{TableState, table_state};
    ghost use Rattle.download_shares.specs.Table.{IsTable};

    ghost Value = { TableState };

    ghost view = { λ t. table_state t.holdings.items t.numbers.items };

    ghost invariant = { λ t. IsTable (table_state t.holdings.items t.numbers.items)
        × (t.reading ≡ read_count t.numbers.items) };
}

impl Table {
    /// No holding of a file with so many shares.
    pub(crate) fn new(alloc: Global, total: u16) -> Result<Table, AllocError>
        ensures holdings { IfOk result (λ t. t.holdings ≡ []) }
        ensures numbers { IfOk result (λ t. length t.numbers ≡ total) }
        ensures unread { IfOk result (λ t. All (λ n. n ≡ no_holding) t.numbers) }
        ensures right { IfOk result IsTable }
    {
        let mut numbers = Vec::with_capacity(alloc, usize::from(total))?;
        for _ in 0..total {
            numbers.push(Number::new(alloc))?;
        }
        Ok(Table {
            holdings: Vec::new(alloc),
            numbers,
            reading: 0,
            loads: Loads::new(alloc),
        })
    }

    /// The holdings, in the order in which they were told.
    pub(crate) fn holdings(&self) -> &[Holding]
        ensures value { result.now ≡ self.now.holdings }
        ensures right { IsTable self.now }
    {
        self.holdings.as_slice()
    }

    /// How many share numbers count.
    pub(crate) fn number_count(&self) -> usize
        ensures { result ≡ length self.now.numbers }
    {
        self.numbers.len()
    }

    /// Of how many numbers a holding is read.
    pub(crate) fn reading(&self) -> usize
        ensures { result ≡ read_count self.now.numbers }
    {
        self.reading
    }

    /// A server tells that it holds a share.
    pub(crate) fn tell(&mut self, server: NodeId, share: u8) -> Result<(), AllocError>
        requires { share < length self.old.numbers }
        ensures holdings { OnOk result (self.new.holdings
            ≡ self.old.holdings ++ told_one server share ∷ []) }
        ensures number { OnOk result (ChangesNumber share (with_position (length self.old.holdings))
            self.old self.new) }
        ensures err { OnErr result (self.new ≡ self.old) }
        ensures right { IsTable self.new }
    {
        let position = self.holdings.len();
        self.holdings.reserve(1)?;
        self.loads.join(server)?;
        self.numbers[usize::from(share)].add(position)?;
        self.holdings.push_reserved(Holding {
            server,
            share,
            left: true,
            suspended: false,
        });
        Ok(())
    }

    /// A holding is not left any more, and not read.
    pub(crate) fn retire(&mut self, position: usize)
        requires { position < length self.old.holdings }
        ensures retires { Retires position self.old self.new }
        ensures right { IsTable self.new }
    {
        let holding = &mut self.holdings[position];
        holding.left = false;
        let number = &mut self.numbers[usize::from(holding.share)];
        let ended = usize::from(number.reads(position));
        self.reading -= ended;
        self.loads.fall(holding.server, ended);
        number.remove(position);
    }

    /// A holding is read from now on.
    pub(crate) fn take_up(&mut self, position: usize)
        requires { (h : Holding) × IsHolding self.old position h × IsFree self.old h }
        ensures takes { TakesUp position self.old self.new }
        ensures right { IsTable self.new }
    {
        let holding = self.holdings[position];
        self.numbers[usize::from(holding.share)].take_up(position);
        self.reading += 1;
        self.loads.rise(holding.server);
    }

    /// A holding is not read any more, and may be read again.
    pub(crate) fn release(&mut self, position: usize)
        requires { position < length self.old.holdings }
        ensures releases { Releases position self.old self.new }
        ensures right { IsTable self.new }
    {
        let holding = self.holdings[position];
        let number = &mut self.numbers[usize::from(holding.share)];
        let ended = usize::from(number.reads(position));
        self.reading -= ended;
        self.loads.fall(holding.server, ended);
        number.release(position);
    }

    /// Whether a holding may be chosen is changed.
    pub(crate) fn suspend(&mut self, position: usize, suspended: bool)
        requires { position < length self.old.holdings }
        ensures suspends { Suspends suspended position self.old self.new }
        ensures right { IsTable self.new }
    {
        self.holdings[position].suspended = suspended;
    }

    /// The next one to read: of the lowest share number of which none is read and one may be
    /// chosen. Of several it prefers the one at the server of which the fewest are read, and of
    /// these the first that was told.
    pub(crate) fn choose(&self) -> Option<usize>
        ensures free { IfSome result (λ position.
            (h : Holding) × IsHolding self.now position h × IsFree self.now h) }
        ensures lowest { IfSome result (λ position. (h : Holding)
            → IsHolding self.now position h → NoneIsFreeBefore self.now h.share) }
        ensures none { IfNone result (NoneIsFree self.now) }
    {
        for number in &self.numbers {
            if !number.is_read() {
                let chosen = self.choose_among(number.left());
                if chosen.is_some() {
                    return chosen;
                }
            }
        }
        None
    }

    // The next one to read among these.
    #[tactic(auto, using(crate::proofs::Tables::chooses_this, crate::proofs::Tables::chooses_on))]
    fn choose_among(&self, positions: &[usize]) -> Option<usize>
        requires { All (λ position. position < length self.now.holdings) positions.now }
        ensures { Chooses self.now positions.now result }
    {
        let mut chosen = None;
        let mut least = usize::MAX;
        for position in positions {
            let holding = &self.holdings[*position];
            if !holding.suspended {
                let load = self.loads.at(holding.server);
                if chosen.is_none() || load < least {
                    least = load;
                    chosen = Some(*position);
                }
            }
        }
        chosen
    }
}
