// What a scan reads of posting trees.
ghost use Rattle.std.specs.Prelude.{◌≡◌, ◌≢◌, ◌⊎◌, ◌<◌, length, IfOk, IfErr, IfSome, IfNone, OnOk};
ghost use Rattle.page_types.specs.Items.{IsItemList};
ghost use Rattle.page_types.specs.Pages.{IsPage};
ghost use Rattle.buffer_frames.specs.declared.frame_error.FrameError.TheVariants.{BadPage, OutOfMemory};
ghost use Rattle.gin_opclass.specs.Class.{meaning};
ghost use Rattle.core_moments.specs.Walk as walk;
ghost use Rattle.core_moments.specs.OpenLaws.{IsPostingPage};
ghost use Rattle.gin_hits.specs.Entries.{posting_list_in};

use crate::scan_core::{ScanCore, hold_page};
use crate::stage::Stage;
use buffer_frames::{FrameError, Frames, Pass};
use disk_trait::Disk;
use gin_opclass::Meaning;
use page_types::{Body, Gone, Page};

/// The item list of a leaf of a posting tree, an empty one of another page of a tree; none of other pages.
fn list_on(page: &Page) -> Option<&[u8]>
    requires { IsPage page.now }
    ensures some { IfSome result (λ list. IsPostingPage page.now × (list.now ≡ posting_list_in page.now.body)) }
    ensures list { IfSome result (λ list. IsItemList list.now) }
    ensures none { IfNone result (IsPostingPage page.now → ⊥) }
{
    match &page.body {
        Body::PostLeaf { items, .. } => Some(items.as_slice()),
        Body::PostInner(_) => Some(&[]),
        Body::Deleted(Gone::PostLeaf { .. }) => Some(&[]),
        _ => None,
    }
}

/// The page of a posting tree that is next: the leftmost child of an inner page, and of a leaf, a deleted one too, its
/// right link.
fn along(page: &Page) -> u32
    ensures { result ≡ walk.along page.now }
{
    match &page.body {
        Body::PostInner(children) => match children.get(0) {
            Some(child) => child.page,
            None => 0,
        },
        Body::PostLeaf { .. } => page.right,
        Body::Deleted(_) => page.right,
        _ => 0,
    }
}

impl ScanCore {
    ghost use Rattle.std.specs.Prelude.{◌-◌, ◌^◌};
    ghost use Rattle.gin_scan.specs.Scanning.{IsScan};
    ghost use Rattle.gin_scan.specs.Inner.Steps.{MayStep, IsStepOf};
    ghost use Rattle.gin_scan.specs.Inner.Notes.{NotesTree};
    ghost use Rattle.gin_scan.specs.Inner.Ways.{GoesToTree};
    ghost use Rattle.gin_scan.specs.declared.stage.Stage.TheVariants as stages;

    /// What is read after a leaf, or after a posting tree: the tree with this number, or the leaf that is next where
    /// there is none. So many pages were read on the key's way to leaves.
    pub(crate) fn next_tree(&self, key: usize, at: usize, then: u32, read: u32) -> Stage
        ensures goes { GoesToTree self.now key at then read result }
        ensures within { self.now.extent < 2 ^ 32 }
    {
        let most = self.most_pages();
        if at < self.roots.len() {
            return Stage::Posting {
                key,
                at,
                page: self.roots[at].root,
                left: most,
                then,
                read,
            };
        }
        Stage::Leaf {
            key,
            page: then,
            left: most.saturating_sub(read),
        }
    }

    /// Notes the items on a page of the posting tree with this number, which has that page number: the page that is
    /// next, of at most so many, or 0.
    fn note_posting(
        &mut self,
        page: &Page,
        number: u32,
        key: usize,
        at: usize,
        left: u32,
        then: u32,
        read: u32,
    ) -> Result<Stage, FrameError>
        requires scan { IsScan self.old }
        requires page { IsPage page.now }
        requires some { at < length self.old.roots.items }
        ensures took { self.new.took_pin ≡ self.old.took_pin }
        ensures noted { IfOk result (NotesTree self.old key at left then read page.now self.new) }
        ensures bad { IfErr result (λ e. (e ≡ OutOfMemory)
            ⊎ ((e ≡ BadPage number) × (IsPostingPage page.now → ⊥))) }
    {
        let Some(list) = list_on(page) else {
            return Err(FrameError::BadPage { page: number });
        };
        let entry = self.roots[at].key.as_slice();
        self.main.add_entry(self.keys.keys.as_slice(), entry, list)?;
        Ok(Stage::Posting {
            key,
            at,
            page: along(page),
            left,
            then,
            read,
        })
    }

    /// Reads the next page of a posting tree, or goes on after it where there is none.
    pub(crate) fn go_on_trees<D: Disk, Q, W: Meaning<Q>>(
        &mut self,
        frames: &mut Frames<D>,
        pass: &mut Pass,
        query: &Q,
        key: usize,
        at: usize,
        page: u32,
        left: u32,
        then: u32,
        read: u32,
    ) -> Result<(), FrameError>
        requires may { MayStep D.Disk (meaning W.asked W.all W.satisfies W.judged) query.now
            frames.old pass.old self.old }
        requires stage { self.old.stage ≡ stages.Posting key at page left then read }
        ensures is_step { IsStepOf D.Disk (meaning W.asked W.all W.satisfies W.judged) query.now
            frames.old pass.old self.old frames.new pass.new self.new result }
    {
        let after = self.next_tree(key, at + 1, then, read);
        if page == 0 {
            self.stage = after;
            return Ok(());
        }
        if left == 0 {
            return self.go_further::<D, Q, W>(frames, pass, query, after);
        }
        let held = hold_page(frames, pass, page)?;
        let next = self.note_posting(held.page(), page, key, at, left - 1, then, read);
        self.leave(frames, pass, held, next)
    }
}
