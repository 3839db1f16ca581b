//! What the monitor keeps beside its state.

ghost use Rattle.std.specs.Prelude.{◌≡◌, ◌<◌, ◌≤◌, ◌∷◌, ◌++◌, List, Some, None, IfOk, IfSome, option_map};
ghost use Rattle.fill_bitmap.specs.Area.{IsSuitable, blocks_of};
ghost use Rattle.fill_bitmap.specs.Bitmap.{blocks_in};
ghost use Rattle.guest_view.specs.Fits.{FitsView};
ghost use Rattle.mon_pool.specs.Region.{Held, AreOf, IsOf, buffers_in, first_free, lease_of, leased, out_of};
ghost use Rattle.monitor_state.specs.Setup.{IsSetup};
ghost use Rattle.monitor_state.specs.State.{end_of_piece, is_opened, range_of};
ghost use Rattle.monitor_state.specs.Leases.{AreLeased, leases_of_parts};
ghost use Rattle.monitor_state.specs.Pieces.{let_go_before, piece_let_go, tidied, word_offered};
ghost use Rattle.monitor_state.specs.Classes.{class_of_order, is_refused};
ghost use Rattle.monitor_state.specs.Hand.{HasInHand};
ghost use Rattle.monitor_state.specs.Start.{FitAtPowerOn, IsBegun};

use crate::{Hand, HeldPiece, NoMemory, Setup};
use aoe_client::Client;
use ata_taskfile::registers::SECTOR_BYTES;
use ata_taskfile::{Phase, Taken};
use fill_bitmap::{Area, Bitmap};
use fill_store::Opening;
use io_interpret::{Class, classify};
use mon_pool::{Lease, Pool, leases_are_counted};
use port_lease::View;
use redirect::word_in_piece;
use std::alloc::Global;
use std::mem;

/// What the monitor keeps, whoever has the drive (own). It can't be let go: `end` spends it.
pub struct Parts {
    /// The image on the disk.
    pub area: Area,
    /// The number of the run.
    pub id: u64,
    /// The blocks of the image that are on the disk.
    pub bitmap: Bitmap,
    /// How far the opening of the disk has come.
    pub opening: Opening,
    /// What is asked of the image server.
    pub client: Client,
    /// The buffers of a block each.
    pub pool: Pool,
    /// The piece of the redirected read in hand whose bytes are there.
    pub held: Option<HeldPiece>,
    /// What is remembered of the guest's command in hand.
    pub hand: Hand,
    /// The buffer of own commands of one sector.
    pub sector: [u8; SECTOR_BYTES],
}

impl Parts {
    /// The parts at power-on. It fails only for want of memory.
    pub fn new(alloc: Global, setup: &Setup) -> Result<Parts, NoMemory>
        requires setup { IsSetup setup.now }
        requires image { 0 < setup.now.area.image }
        ensures begun { IfOk result (IsBegun setup.now.area setup.now.id setup.now.pool) }
        ensures fits { IfOk result FitAtPowerOn }
    {
        let area = setup.area;
        let bitmap = Bitmap::new(alloc, area.blocks())?;
        let Ok(pool) = Pool::new(alloc, setup.pool, SECTOR_BYTES as u32 * area.block) else {
            return Err(NoMemory);
        };
        Ok(Parts {
            area,
            id: setup.id,
            bitmap,
            opening: Opening::new(area, setup.id),
            client: Client::new(area.block),
            pool,
            held: None,
            hand: Hand::empty(),
            sector: [0; SECTOR_BYTES],
        })
    }

    /// Whether opening has ended.
    pub fn is_opened(&self) -> bool
        ensures { result ≡ is_opened self.now }
    {
        self.opening.next().is_none()
    }

    /// A buffer of the pool, of which one is always free.
    pub fn take_lease(&mut self) -> Lease
        requires room { out_of self.old.pool < buffers_in self.old.pool }
        ensures lease { Some result
            ≡ option_map (lease_of self.old.pool) (first_free self.old.pool) }
        ensures after { self.new
            ≡ record self.old { pool = leased (first_free self.old.pool) self.old.pool } }
        ensures leased { (before behind : List Held) → AreLeased (before ++ behind) self.old
            → AreLeased (before ++ result ∷ behind) self.new }
    {
        // While not all are out one is free.
        leases_are_counted();
        match self.pool.take() {
            Some(lease) => lease,
            None => unreachable!(),
        }
    }

    /// Gives the held piece's buffer back, where there is one.
    pub fn let_go(&mut self)
        requires { IfSome self.old.held (λ held. IsOf held.lease self.old.pool) }
        ensures after { self.new ≡ piece_let_go self.old }
    {
        match mem::replace(&mut self.held, None) {
            Some(held) => {
                let HeldPiece {
                    first: _,
                    count: _,
                    base: _,
                    lease,
                    block: _,
                } = held;
                self.pool.give(lease);
            }
            None => {}
        }
    }

    /// Holds a piece, in place of none.
    pub fn hold(&mut self, held: HeldPiece)
        requires { self.old.held ≡ None }
        ensures after { self.new ≡ record self.old { held = Some held } }
    {
        match mem::replace(&mut self.held, Some(held)) {
            Some(_other) => unreachable!(),
            None => {}
        }
    }

    /// What the monitor makes of the guest's command.
    pub fn class_of(&self, order: &Taken) -> Class
        requires suitable { IsSuitable self.now.area }
        requires blocks { blocks_in self.now.bitmap ≡ blocks_of self.now.area }
        ensures class { result ≡ class_of_order order.now self.now }
    {
        classify(&order.order(), &self.area, &self.bitmap)
    }

    /// Whether a command is refused since it names a reserved sector.
    ///
    /// A write to an empty block is refused so too, until blocks are filled before they are written.
    pub fn is_refused(&self, order: &Taken) -> bool
        requires suitable { IsSuitable self.now.area }
        requires blocks { blocks_in self.now.bitmap ≡ blocks_of self.now.area }
        ensures refused { result ≡ is_refused order.now self.now }
    {
        matches!(self.class_of(order), Class::Reserved | Class::FillFirst)
    }

    /// The first sector and the count of the held piece.
    pub fn held_range(&self) -> Option<(u64, u32)>
        ensures { result ≡ range_of self.now.held }
    {
        match &self.held {
            Some(held) => Some((held.first, held.count)),
            None => None,
        }
    }

    /// The word that a read of Data gives: of the held piece, where a block of it is offered.
    pub fn word(&self, view: &View) -> u16
        requires suitable { IsSuitable self.now.area }
        requires view { FitsView view.now self.now.area.sectors }
        requires in_hand { HasInHand view.now.file.phase view.now self.now }
        requires lease { IfSome self.now.held (λ held. IsOf held.lease self.now.pool) }
        ensures word { result ≡ word_offered view.now.file.phase self.now.held self.now.pool }
    {
        let Some(held) = &self.held else {
            return 0xffff;
        };
        let Phase::Ready(order, done, left) = view.file.phase else {
            return 0xffff;
        };
        let Taken::Good(order) = order else {
            return 0xffff;
        };
        let sector = order.first + u64::from(done);
        word_in_piece(self.pool.bytes(&held.lease), held.base, sector, left)
    }

    /// Lets the held piece go once the guest has its last word, and what is in hand once the command has ended.
    pub fn tidy(&mut self, view: &View)
        requires view { FitsView view.now self.old.area.sectors }
        requires suitable { IsSuitable self.old.area }
        requires lease { IfSome self.old.held (λ held. IsOf held.lease self.old.pool) }
        requires end { IfSome self.old.held (λ held. end_of_piece held ≤ self.old.area.sectors) }
        ensures after { self.new ≡ tidied view.now.file.phase self.old }
    {
        match view.file.phase {
            Phase::Busy(order, done) => {
                if let Taken::Good(order) = order {
                    self.let_go_before(order.first + u64::from(done));
                }
            }
            Phase::Idle => {
                self.let_go();
                self.hand = Hand::empty();
            }
            _ => {}
        }
    }

    // Lets the held piece go where it ends at or before a sector.
    fn let_go_before(&mut self, sector: u64)
        requires suitable { IsSuitable self.old.area }
        requires lease { IfSome self.old.held (λ held. IsOf held.lease self.old.pool) }
        requires end { IfSome self.old.held (λ held. end_of_piece held ≤ self.old.area.sectors) }
        ensures after { self.new ≡ let_go_before sector self.old }
    {
        let served = match &self.held {
            Some(held) => held.end() <= sector,
            None => false,
        };
        if served {
            self.let_go();
        }
    }

    /// Spends the parts: every lease goes back to the pool.
    pub fn end(mut self)
        requires { AreOf (leases_of_parts self) self.pool }
    {
        self.let_go();
        let Parts {
            area: _,
            id: _,
            bitmap: _,
            opening: _,
            client,
            mut pool,
            held,
            hand: _,
            sector: _,
        } = self;
        client.end(&mut pool);
        match held {
            Some(_held) => unreachable!(),
            None => {}
        }
    }
}
