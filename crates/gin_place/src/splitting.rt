// A page of a tree is split.
ghost use Rattle.std.specs.Prelude.{◌≡◌, ◌≢◌, ◌⊎◌, ◌↔◌, ◌<◌, List, [], ◌∷◌, ◌++◌, IfOk, IfErr, IfSome, IfNone};
ghost use Rattle.std.specs.Prelude.{OnOk, OnErr, IsTrue, true};
ghost use Rattle.page_types.specs.Encoding.{count_of};
ghost use Rattle.page_types.specs.Numbers.{page_limit};
ghost use Rattle.page_types.specs.Keys.{IsKey, KeyLess};
ghost use Rattle.page_types.specs.Parts.{child_shown};
ghost use Rattle.page_types.specs.declared.page.EntryChild.{EntryChild};
ghost use Rattle.page_types.specs.Pages.{IsPage};
ghost use Rattle.core_state.specs.TreeRules.{EntryParent};
ghost use Rattle.buffer_frames.specs.Frames.{Lies};
ghost use Rattle.buffer_frames.specs.Passes.{IsPassOf, IsHolding};
ghost use Rattle.entry_tree.specs.Finding.{IsEntryBody, IsBelow};
ghost use Rattle.gin_place.specs.Trees.{root_of};
ghost use Rattle.gin_place.specs.Placing.{HasRight};
ghost use Rattle.gin_place.specs.Going.{WorksOn};
ghost use Rattle.gin_place.specs.Adopting.{Divides, CanTake};
ghost use Rattle.gin_place.specs.Causes.{HadPage};
ghost use Rattle.gin_place.specs.Faults.{MetNoFault, FaultBy};
ghost use Rattle.gin_place.specs.Holding.{ReadsOn, IsNewHeld};
ghost use Rattle.gin_place.specs.Inner.Making.{WhyNoRoom};
ghost use Rattle.gin_place.specs.Inner.Logging.{Adopts, IsSplitStep};
ghost use Rattle.gin_place.specs.Inner.Dividing.{AreSplit, EndsWithin, Takes, Passed, Bars, WhyNotDivided, WhyNotTaken};
ghost use Rattle.gin_place.specs.Inner.Dividing.{WhyNoSplit};
ghost use Rattle.gin_place.specs.declared.sought.Sought.{Sought as SoughtValue};
ghost use Rattle.gin_place.specs.declared.sought.Sought.TheVariants as soughts;

use crate::error::PlaceError;
use crate::growing::is_large;
use crate::holding::{bad_page, hold_new, hold_page};
use crate::logging::{Three, give_back, log_three, release, three_step};
use crate::posting_splits;
use crate::sought::Sought;
use buffer_frames::{Frames, Held, Pass, Step};
use disk_trait::Disk;
use entry_tree::{Found, adopt, find, has_room, pages_may_be_logged, split, upper};
use gin_opclass::{CompareKeys, Judge, Meaning, OpClass};
use page_types::{Body, EntryChildRef, EntryChildren, Kind, Page};
use posting_code::Keep;
use std::alloc::{AllocError, Global};

/// How many entries or children a page has.
fn members(page: &Page) -> usize
    ensures { IsEntryBody page.now.body → result ≡ count_of page.now.body }
{
    match &page.body {
        Body::EntryLeaf { entries, .. } => entries.len(),
        Body::EntryInner(children) => children.len(),
        _ => 0,
    }
}

/// Whether a child is the last of a page.
fn is_last_child(page: &Page, child: u32) -> bool {
    match &page.body {
        Body::EntryInner(children) => match children.get(children.len().saturating_sub(1)) {
            Some(last) => last.page == child,
            None => false,
        },
        _ => false,
    }
}

/// What the first part keeps: most, where the key to come is after all that the page has, so that pages
/// stay full where keys come in order; else half.
fn keep_for<Q, W: Meaning<Q>, C: CompareKeys, J: Judge<Q, W>>(
    page: &Page,
    class: &OpClass<Q, W, C, J>,
    key: &[u8],
) -> Keep
    requires page { IsPage page.now }
    requires entries { IsEntryBody page.now.body }
{
    match find(page, class, key) {
        Found::Absent { place } if place == members(page) => Keep::Most,
        Found::Down { child } if is_last_child(page, child) => Keep::Most,
        _ => Keep::Half,
    }
}

/// Whether a bound is there and below a key.
fn is_above<Q, W: Meaning<Q>, C: CompareKeys, J: Judge<Q, W>>(
    class: &OpClass<Q, W, C, J>,
    key: &[u8],
    bound: &[u8],
) -> bool
    ensures { IsTrue result ↔ IsBelow bound.now key.now }
{
    !bound.is_empty() && class.compare(bound, key).is_lt()
}

/// Whether there is no bound, or it is above a key.
fn is_within<Q, W: Meaning<Q>, C: CompareKeys, J: Judge<Q, W>>(
    class: &OpClass<Q, W, C, J>,
    key: &[u8],
    bound: &[u8],
) -> bool
    ensures { IsTrue result ↔ ((bound.now ≡ []) ⊎ KeyLess key.now bound.now) }
{
    bound.is_empty() || class.compare(key, bound).is_lt()
}

/// Whether the page is named by this child or one before it; none where two name it, or the key does not
/// divide what is below it.
fn named_by<Q, W: Meaning<Q>, C: CompareKeys, J: Judge<Q, W>>(
    named: bool,
    child: EntryChildRef<'_>,
    class: &OpClass<Q, W, C, J>,
    page: u32,
    mid: &[u8],
) -> Option<bool>
    requires { IsKey mid.now }
    ensures some { IfSome result (λ n. (before : List EntryChild) → Passed named before page mid.now
        → Passed n (before ++ child_shown child.entry ∷ []) page mid.now) }
    ensures none { IfNone result (Bars named (child_shown child.entry) page mid.now) }
{
    if child.page == page {
        return if named || !is_within(class, mid, child.bound) {
            None
        } else {
            Some(true)
        };
    }
    if !named && !is_above(class, mid, child.bound) {
        return None;
    }
    Some(named)
}

/// Whether one child alone has this page, and a key divides what is below it: the bounds before it are
/// below the key, and its own, if it has one, is above.
fn divides<Q, W: Meaning<Q>, C: CompareKeys, J: Judge<Q, W>>(
    children: &EntryChildren,
    class: &OpClass<Q, W, C, J>,
    page: u32,
    mid: &[u8],
) -> bool
    requires { IsKey mid.now }
    ensures { IsTrue result ↔ Divides children.now page mid.now }
{
    let mut named = false;
    for k in 0..children.len() {
        let Some(child) = children.get(k) else {
            return false;
        };
        let Some(now) = named_by(named, child, class, page, mid) else {
            return false;
        };
        named = now;
    }
    named
}

/// The parent that is held, with the new page after the page that is split.
fn adopting<Q, W: Meaning<Q>, C: CompareKeys, J: Judge<Q, W>>(
    held: &Held,
    class: &OpClass<Q, W, C, J>,
    page: u32,
    new: u32,
    mid: &[u8],
) -> Result<Page, PlaceError>
    requires key { IsKey mid.now }
    requires new { new < page_limit }
    ensures adopts { IfOk result (λ p. EntryParent page new mid.now held.now.content.body p.body) }
    ensures same { IfOk result (λ p. p ≡ record held.now.content { body = p.body }) }
    ensures is_page { IfOk result IsPage }
    ensures cause { IfErr result (WhyNotTaken (CanTake page mid.now) held.now) }
{
    let parent = held.page();
    let Body::EntryInner(children) = &parent.body else {
        return Err(bad_page(held));
    };
    if !has_room(parent) || !divides(children, class, page, mid) {
        return Err(bad_page(held));
    }
    match adopt(parent, page, new, mid)? {
        Some(adopted) => Ok(adopted),
        None => Err(bad_page(held)),
    }
}

/// The two parts of a page of the entry tree that is held.
fn parts_of<Q, W: Meaning<Q>, C: CompareKeys, J: Judge<Q, W>>(
    alloc: Global,
    class: &OpClass<Q, W, C, J>,
    key: &[u8],
    held: &Held,
    new: u32,
) -> Result<(Page, Page), PlaceError>
    requires new { (new ≢ 0) × (new < page_limit) }
    ensures parts { IfOk result (λ r. AreSplit soughts.Key held.now.content new r.0 r.1) }
    ensures cause { IfErr result (WhyNotDivided soughts.Key held.now) }
{
    let page = held.page();
    if !is_large(Sought::Key, page) || members(page) < 2 {
        return Err(bad_page(held));
    }
    Ok(split(alloc, page, new, keep_for(page, class, key))?)
}

/// The two parts of the page that is held.
fn tree_halves<Q, W: Meaning<Q>, C: CompareKeys, J: Judge<Q, W>>(
    alloc: Global,
    class: &OpClass<Q, W, C, J>,
    key: &[u8],
    sought: Sought,
    three: &Three,
) -> Result<(Page, Page), PlaceError>
    requires { three.now.new.page ≢ 0 }
    ensures parts { IfOk result (λ r. AreSplit sought three.now.page.content three.now.new.page r.0 r.1) }
    ensures cause { IfErr result (WhyNotDivided sought three.now.page) }
{
    let (held, new) = (&three.page, three.new.number());
    match sought {
        Sought::Key => parts_of(alloc, class, key, held, new),
        Sought::Item { root, item } => posting_splits::parts_of(alloc, root, item, held, new),
    }
}

/// The parent that is held, with the new page after the page whose first part is this.
fn tree_adopting<Q, W: Meaning<Q>, C: CompareKeys, J: Judge<Q, W>>(
    class: &OpClass<Q, W, C, J>,
    sought: Sought,
    left: &Page,
    three: &Three,
) -> Result<Page, PlaceError>
    requires { EndsWithin sought left.now }
    ensures adopts { IfOk result
        (λ p. Adopts sought three.now.page.page three.now.new.page left.now three.now.parent.content p) }
    ensures same { IfOk result (λ p. p ≡ record three.now.parent.content { body = p.body }) }
    ensures is_page { IfOk result IsPage }
    ensures cause { IfErr result
        (WhyNotTaken (Takes sought three.now.page.page left.now) three.now.parent) }
{
    let (page, new, held) = (three.page.number(), three.new.number(), &three.parent);
    match sought {
        Sought::Key => adopting(held, class, page, new, upper(left)),
        Sought::Item { .. } => {
            posting_splits::adopting(held, page, new, posting_tree::upper(left))
        }
    }
}

/// The step by which a page of the tree where something is sought is split: its two parts, and its parent with
/// the new page.
fn split_step<Q, W: Meaning<Q>, C: CompareKeys, J: Judge<Q, W>>(
    alloc: Global,
    class: &OpClass<Q, W, C, J>,
    key: &[u8],
    sought: Sought,
    three: &Three,
) -> Result<Step, PlaceError>
    requires { three.now.new.page ≢ 0 }
    ensures step { IfOk result (IsSplitStep sought (three.now.page) (three.now.new) (three.now.parent)) }
    ensures low { OnOk result ((three.now.page.page < page_limit) × (three.now.new.page < page_limit)
        × (three.now.parent.page < page_limit)) }
    ensures cause { IfErr result (WhyNoSplit sought three.now.page three.now.parent) }
{
    let (left, right) = tree_halves(alloc, class, key, sought, three)?;
    match tree_adopting(class, sought, &left, three) {
        Ok(adopted) => Ok(three_step(
            alloc,
            Kind::Split,
            (&three.page, left),
            (&three.new, right),
            (&three.parent, adopted),
        )?),
        Err(error) => {
            drop(left);
            drop(right);
            Err(error)
        }
    }
}

/// The page, its parent and a new page, which are held.
fn hold_three<D: Disk>(
    frames: &mut Frames<D>,
    pass: &mut Pass,
    parent: u32,
    page: u32,
) -> Result<Three, PlaceError>
    requires pass { IsPassOf frames.old pass.old }
    requires right { HasRight pass.old }
    requires none { pass.old.held ≡ 0 }
    ensures reads { ReadsOn D.Disk frames.old pass.old frames.new pass.new }
    ensures holding { IfOk result (λ t. IsHolding D.Disk frames.new pass.new
        (t.new ∷ t.page ∷ t.parent ∷ [])) }
    ensures new { IfOk result (λ t. IsNewHeld D.Disk frames.new pass.new t.new) }
    ensures number { IfOk result (λ t. t.new.page ≢ 0) }
    ensures numbers { IfOk result (λ t. (t.page.page ≡ page) × (t.parent.page ≡ parent)) }
    ensures took { OnOk result (HadPage D.Disk frames.old pass.old) }
    ensures lies { IfOk result (λ t. Lies frames.old page t.page.content
        × Lies frames.old parent t.parent.content) }

    // The refusals: no page is held.
    ensures still { OnErr result (pass.new.held ≡ 0) }
    ensures cause { (t : SoughtValue) → page ≢ root_of t
        → IfErr result (WhyNoRoom D.Disk t frames.old pass.old parent page frames.new) }
    ensures fine { OnOk result (MetNoFault D.Disk frames.old frames.new) }
    ensures fault { IfErr result (λ e. FaultBy D.Disk frames.old frames.new e) }
{
    let parent = hold_page(frames, pass, parent)?;
    let page = match hold_page(frames, pass, page) {
        Ok(page) => page,
        Err(error) => {
            release(frames, pass, parent);
            return Err(error);
        }
    };
    match hold_new(frames, pass) {
        Ok(new) => Ok(Three { new, page, parent }),
        Err(error) => {
            release(frames, pass, page);
            release(frames, pass, parent);
            Err(error)
        }
    }
}

/// A page is split: a new page takes its second part, and stands after it in the parent.
pub(crate) fn split_page<D: Disk, Q, W: Meaning<Q>, C: CompareKeys, J: Judge<Q, W>>(
    alloc: Global,
    frames: &mut Frames<D>,
    pass: &mut Pass,
    parent: u32,
    page: u32,
    class: &OpClass<Q, W, C, J>,
    key: &[u8],
    sought: Sought,
) -> Result<(), PlaceError>
    requires pass { IsPassOf frames.old pass.old }
    requires right { HasRight pass.old }
    requires none { pass.old.held ≡ 0 }
    ensures none_held { pass.new.held ≡ 0 }
    ensures divided { OnOk result (WorksOn D.Disk frames.old pass.old frames.new pass.new (17 ∷ [])) }
    ensures took { OnOk result (HadPage D.Disk frames.old pass.old) }
    ensures refused { OnErr result (ReadsOn D.Disk frames.old pass.old frames.new pass.new) }
    ensures cause { page ≢ root_of sought
        → IfErr result (WhyNoRoom D.Disk sought frames.old pass.old parent page frames.new) }
    ensures fine { OnOk result (MetNoFault D.Disk frames.old frames.new) }
    ensures fault { IfErr result (λ e. FaultBy D.Disk frames.old frames.new e) }
{
    pages_may_be_logged();
    posting_tree::pages_may_be_logged();
    let three = hold_three(frames, pass, parent, page)?;
    match split_step(alloc, class, key, sought, &three) {
        Ok(step) => log_three(alloc, frames, pass, three, step),
        Err(error) => {
            give_back(frames, pass, three);
            Err(error)
        }
    }
}
