//! How the data of an order moves: by its form, word by word through Data, and which phase moves sectors by the bus
//! master. `specs/Data.antt` says the same.

ghost use Rattle.std.specs.Prelude.{◌≡◌, ◌<◌};
ghost use Rattle.ata_taskfile.specs.Data.{gives_words, takes_words, moves_by_bus, word_given, word_taken};
ghost use Rattle.ata_taskfile.specs.Device.{is_moving};

use crate::{Form, Phase, Request, Taken};

impl Form {
    /// The words are read from Data (ATA/ATAPI-6, PIO data-in).
    pub fn gives_words(self) -> bool
        ensures { result ≡ gives_words self }
    {
        match self {
            Form::PioIn => true,
            Form::NoMove | Form::PioOut | Form::DmaIn | Form::DmaOut => false,
        }
    }

    /// The words are written to Data (ATA/ATAPI-6, PIO data-out).
    pub fn takes_words(self) -> bool
        ensures { result ≡ takes_words self }
    {
        match self {
            Form::PioOut => true,
            Form::NoMove | Form::PioIn | Form::DmaIn | Form::DmaOut => false,
        }
    }

    /// The bus master moves the sectors (ATA/ATAPI-6, DMA).
    pub fn moves_by_bus(self) -> bool
        ensures { result ≡ moves_by_bus self }
    {
        match self {
            Form::DmaIn | Form::DmaOut => true,
            Form::NoMove | Form::PioIn | Form::PioOut => false,
        }
    }
}

impl Request {
    /// The phase after a word was read of the block at position `done`, of which `left` were left (ATA/ATAPI-6, PIO
    /// data-in).
    pub fn word_given(self, done: u32, left: u16) -> Phase
        requires { done < self.count }
        ensures { result ≡ word_given self done left }
    {
        if left > 1 {
            Phase::Ready(Taken::Good(self), done, left - 1)
        } else if done + 1 < self.count {
            Phase::Busy(Taken::Good(self), done + 1)
        } else {
            Phase::Idle
        }
    }

    /// The phase after a word was written of the block at position `done`, of which `left` were left (ATA/ATAPI-6,
    /// PIO data-out).
    pub fn word_taken(self, done: u32, left: u16) -> Phase
        requires { done < self.count }
        ensures { result ≡ word_taken self done left }
    {
        if left > 1 {
            Phase::Ready(Taken::Good(self), done, left - 1)
        } else {
            Phase::Busy(Taken::Good(self), done + 1)
        }
    }
}

impl Phase {
    /// A command is in hand whose sectors the bus master moves.
    pub fn is_moving(self) -> bool
        ensures { result ≡ is_moving self }
    {
        match self {
            Phase::Busy(Taken::Good(order), _) => order.form.moves_by_bus(),
            Phase::Busy(Taken::Bad(_), _) | Phase::Reset | Phase::Idle | Phase::Ready(..) => false,
        }
    }
}
