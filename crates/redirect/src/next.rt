//! What is next for a redirected read.

ghost use Rattle.std.specs.Prelude.{◌≡◌, ◌+◌, ◌<◌, ◌^◌, IfSome};
ghost use Rattle.redirect.specs.Next.{fetched, has_sector, served};

use ata_taskfile::Form;
use io_interpret::Piece;
use port_lease::View;

/// What the monitor does next for a redirected read (own).
#[derive(Clone, Copy, Debug, PartialEq, Eq)]
pub enum Next {
    /// Nothing: no command is in hand, or the read waits for a block, for an interrupt to be acknowledged, or for a
    /// walk.
    Nothing,
    /// The bytes of this empty block are to be obtained.
    Ask(u32),
    /// A piece that is on the disk is to be read by an own command: its first sector, and how many.
    Read(u64, u32),
    /// A block of the held piece is offered at once, since the interrupt that announces it pends already.
    Serve,
    /// The sectors of the held piece move to the guest's memory, as far as its walk goes.
    Scatter,
    /// A dummy read is to be raised, whose interrupt announces a block of the held piece.
    Raise,
    /// A dummy read is to be raised for the end of the read, all of whose sectors the bus master moved.
    End,
}

// Whether the held piece has this sector.
pub(crate) fn has_sector(held: Option<(u64, u32)>, sector: u64) -> bool
    requires within { IfSome held (λ piece. piece.0 + piece.1 < 2 ^ 64) }
    ensures { result ≡ has_sector held sector }
{
    match held {
        Some((first, count)) => first <= sector && sector < first + u64::from(count),
        None => false,
    }
}

// What serves the held piece: an offered block, or a walk.
pub(crate) fn served(form: Form, view: &View) -> Next
    ensures { result ≡ served form view.now }
{
    match form {
        Form::PioIn if view.file.pending => Next::Serve,
        Form::PioIn => Next::Raise,
        Form::DmaIn if view.bus.walk.is_some() => Next::Scatter,
        Form::DmaIn | Form::NoMove | Form::PioOut | Form::DmaOut => Next::Nothing,
    }
}

// What brings a piece that isn't held. An own command has to leave an interrupt alone that pends for the guest.
pub(crate) fn fetched(piece: Piece, view: &View, waiting: bool) -> Next
    ensures { result ≡ fetched piece.empty piece.first piece.count view.now waiting }
{
    match piece.empty {
        Some(_) if waiting => Next::Nothing,
        Some(b) => Next::Ask(b),
        None if view.file.pending => Next::Nothing,
        None => Next::Read(piece.first, piece.count),
    }
}
