//! A read that is redirected, and what is next for it.

ghost use Rattle.redirect.specs.Read.{IsRead};

use crate::Next;
use crate::next::{fetched, has_sector, served};
use ata_taskfile::{Phase, Request};
use fill_bitmap::{Area, Bitmap};
use io_interpret::first_piece;
use port_lease::View;

/// A guest's read that the monitor serves piece by piece, each from the place that has its bytes (own).
#[derive(Clone, Copy, Debug)]
pub struct Redirect {
    pub(crate) request: Request,
    ghost read: { IsRead request },
}

impl Redirect {
    ghost use Rattle.std.specs.Prelude.{◌≡◌, ◌+◌, ◌≤◌, ◌↔◌, true, IfSome};
    ghost use Rattle.fill_bitmap.specs.Area.{IsSuitable, blocks_of};
    ghost use Rattle.fill_bitmap.specs.Bitmap.{blocks_in};
    ghost use Rattle.redirect.specs.Meaning.{Tells, waits};
    ghost use Rattle.redirect.specs.Next.{IsInHand, end_of_read, next_of, request_of};

    /// The redirect of a read, of which nothing is served yet.
    pub fn new(request: Request) -> Redirect
        requires read { IsRead request }
        ensures request { request_of result ≡ request }
    {
        Redirect { request }
    }

    /// What is next, by the rules of docs/monitor.md, the first that holds. `held` has the first sector and the count
    /// of the piece whose bytes are there to be served, and `waiting` says that the block of the piece that comes next
    /// was asked already.
    pub fn next(
        &self,
        view: &View,
        area: &Area,
        bitmap: &Bitmap,
        held: Option<(u64, u32)>,
        waiting: bool,
    ) -> Next
        requires suitable { IsSuitable area.now }
        requires blocks { blocks_in bitmap.now ≡ blocks_of area.now }
        requires within { end_of_read (request_of self.now) ≤ area.now.sectors }
        requires held { let end = end_of_read (request_of self.now) in
            IfSome held (λ piece. piece.0 + piece.1 ≤ end) }
        requires in_hand { IsInHand (request_of self.now) view.now.file.phase }

        ensures next { result
            ≡ next_of (request_of self.now) view.now area.now bitmap.now.filled held waiting }

        // What follows from it: what each answer tells of the read, and exactly where nothing can be done.
        ensures tells { Tells result
            (request_of self.now) view.now area.now bitmap.now.filled held waiting }
        ensures nothing { (result ≡ Next.Nothing) ↔ (waits
            (request_of self.now) view.now area.now bitmap.now.filled held waiting ≡ true) }
    {
        let Phase::Busy(_, done) = view.file.phase else {
            return Next::Nothing;
        };
        if done >= self.request.count {
            return Next::End;
        }
        let sector = self.request.first + u64::from(done);
        if has_sector(held, sector) {
            return served(self.request.form, view);
        }
        let end = self.request.first + u64::from(self.request.count);
        fetched(first_piece(sector, end, area, bitmap), view, waiting)
    }
}
