// The end of the pending list: its metapage and its last page.
ghost use Rattle.std.specs.Prelude.{◌≡◌, ◌↔◌, ◌<◌, ◌≤◌, ℕ, List, ◌∷◌, ◌++◌, true, IfOk, OnErr, IfErr, MatchOption};
ghost use Rattle.page_types.specs.Numbers.{page_limit};
ghost use Rattle.page_types.specs.Pages.{IsPage};
ghost use Rattle.page_types.specs.declared.page.Body.TheVariants as body;
ghost use Rattle.pending_list.specs.Adding.{IsPendingPage};
ghost use Rattle.core_state.specs.Allowed.{Sheet as SheetValue};

use crate::db::Db;
use crate::error::DbError;
use buffer_frames::{Held, Pass};
use disk_trait::Disk;
use page_types::{Body, PAGE_LIMIT, Page};

/// The page that names the first and the last page of the pending list.
pub(crate) const META_PAGE: u32 = 0;

/// The metapage, which is held, the first page of the pending list that it names and how many there
/// are, and the last page, if there is one, which is held too.
#[derive(Drop)]
pub struct ListEnd {
    pub meta: Held,
    pub first: u32,
    pub pages: u32,
    pub last: Option<Held>,
}

/// The first and the last page of the pending list, and how many pages it has, where this is the
/// metapage. There are no more of them than pages have numbers.
fn named_by(meta: &Page) -> Option<(u32, u32, u32)>
    ensures { MatchOption result ((first last pages : ℕ)
        → meta.now.body ≡ body.Meta first last pages → page_limit < pages)
        (λ n. (meta.now.body ≡ body.Meta n.0 n.1 n.2) × (n.2 ≤ page_limit)) }
{
    match meta.body {
        Body::Meta { first, last, pages } if pages <= PAGE_LIMIT => Some((first, last, pages)),
        _ => None,
    }
}

/// Whether it has rows of the pending list.
fn is_pending(page: &Page) -> bool
    ensures { (result ≡ true) ↔ IsPendingPage page.now }
{
    matches!(page.body, Body::Pending(_))
}

impl<D: Disk> Db<D> {
    ghost use Rattle.buffer_frames.specs.Passes.{IsPassOf, IsHolding};
    ghost use Rattle.engine.specs.Places.{Lies};
    ghost use Rattle.engine.specs.Going.{FaultIsTold};
    ghost use Rattle.engine.specs.Inner.Choosing.{WorksOn, HoldsNoMore, GivesBack};
    ghost use Rattle.engine.specs.Inner.Indexing.{IsListEnd, end_sheets, CannotHoldLast, CannotHoldList, EndLies};

    /// The last page of the pending list, which is held.
    fn hold_last(&mut self, pass: &mut Pass, last: u32) -> Result<Held, DbError>
        requires pass { IsPassOf self.old.frames pass.old }
        requires few { pass.old.held < 4 }
        requires holding { (held : List SheetValue)
            × IsHolding D.Disk self.old.frames pass.old held }
        ensures on { WorksOn D.Disk self.old pass.old self.new pass.new }
        ensures number { IfOk result (λ h. h.page ≡ last) }
        ensures rows { IfOk result (λ h. IsPendingPage h.content) }
        ensures is_page { IfOk result (λ h. IsPage h.content) }
        ensures lies { IfOk result (λ h. Lies self.old last h.content) }
        ensures holding { (held : List SheetValue) → IsHolding D.Disk self.old.frames pass.old held
            → IfOk result (λ h. IsHolding D.Disk self.new.frames pass.new (h ∷ held)) }
        ensures fault { FaultIsTold D.Disk self.old self.new result }

        // The refusals: no page more is held.
        ensures still { OnErr result (HoldsNoMore D.Disk self.old pass.old self.new pass.new) }
        ensures cause { IfErr result (λ e. CannotHoldLast D.Disk self.old last e) }
    {
        let held = self.hold_page(pass, last)?;
        if is_pending(held.page()) {
            return Ok(held);
        }
        self.give_back(pass, held);
        Err(DbError::BadPage { page: last })
    }

    /// The end of the pending list, whose pages are held.
    pub(crate) fn hold_list(&mut self, pass: &mut Pass) -> Result<ListEnd, DbError>
        requires pass { IsPassOf self.old.frames pass.old }
        requires few { pass.old.held < 3 }
        requires holding { (held : List SheetValue)
            × IsHolding D.Disk self.old.frames pass.old held }
        ensures on { WorksOn D.Disk self.old pass.old self.new pass.new }
        ensures is_end { IfOk result (λ e. IsListEnd e) }
        ensures lies { IfOk result (λ e. EndLies self.old e) }
        ensures holding { (held : List SheetValue) → IsHolding D.Disk self.old.frames pass.old held
            → IfOk result (λ e. IsHolding D.Disk self.new.frames pass.new
            (end_sheets e.meta e.last ++ held)) }
        ensures fault { FaultIsTold D.Disk self.old self.new result }

        // The refusals: no page more is held.
        ensures still { OnErr result (HoldsNoMore D.Disk self.old pass.old self.new pass.new) }
        ensures cause { IfErr result (λ e. CannotHoldList D.Disk self.old e) }
    {
        let meta = self.hold_page(pass, META_PAGE)?;
        let Some((first, last, pages)) = named_by(meta.page()) else {
            self.give_back(pass, meta);
            return Err(DbError::BadPage { page: META_PAGE });
        };
        if last == 0 {
            return Ok(ListEnd {
                meta,
                first,
                pages,
                last: None,
            });
        }
        match self.hold_last(pass, last) {
            Ok(held) => Ok(ListEnd {
                meta,
                first,
                pages,
                last: Some(held),
            }),
            Err(error) => {
                self.give_back(pass, meta);
                Err(error)
            }
        }
    }

    /// Gives the end of the pending list back.
    pub(crate) fn release_list(&mut self, pass: &mut Pass, end: ListEnd)
        requires pass { IsPassOf self.old.frames pass.old }
        requires holding { (held : List SheetValue) × IsHolding D.Disk self.old.frames pass.old
            (end_sheets end.meta end.last ++ held) }
        ensures { GivesBack D.Disk self.old pass.old self.new pass.new
            (end_sheets end.meta end.last) }
    {
        let ListEnd { meta, last, .. } = end;
        match last {
            Some(last) => {
                self.give_back(pass, last);
                self.give_back(pass, meta);
            }
            None => self.give_back(pass, meta),
        }
    }
}
