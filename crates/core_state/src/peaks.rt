// A number for each page, with the greatest of them found fast.
ghost use Rattle.std.specs.Prelude.{◌≡◌, ◌≢◌, ℕ, ◌+◌, ◌*◌, ◌/◌, ◌^◌, ◌<◌, ◌≤◌, [], length, drop, replicate, get_or};
ghost use Rattle.std.specs.Prelude.{slice_set, IfSome, IfNone, IfOk, OnOk, IsOk};
ghost use Rattle.page_types.specs.Numbers.{page_limit};
ghost use Rattle.core_state.specs.PageChoice.{IsLeastIfAny};
ghost use Rattle.core_state.specs.Inner.PeakTrees.{ArePeaksBut, IsPeak, IsPeakTree, IsWidth, IsReached, IsFirstAt};

use std::alloc::{AllocError, Global};
use std::marker::Model;

/// A number for each place below a width, 0 at first, under a tree of the greatest ones. Contracts
/// see them as a list.
#[derive(Drop)]
pub(crate) struct Peaks {
    alloc: Global,
    width: usize,
    tree: Vec<u64>,
}

impl Model for Peaks {
    ghost use Rattle.std.specs.Prelude.{List, ℕ, drop};
    ghost use Rattle.core_state.specs.Inner.PeakTrees.{IsPeakTree, IsWidth};

    ghost Value = { List ℕ };

    ghost view = { λ p. drop p.width p.tree.items };

    ghost invariant = { λ p. IsWidth p.width × IsPeakTree p.width p.tree.items };
}

/// A node of the tree, with so many places below it, of which the first is the node `start`.
#[derive(Clone, Copy)]
struct Node {
    at: usize,
    span: usize,
    start: usize,
}

/// The greatest ones over a place that has changed.
fn settle(tree: &mut [u64], width: usize, leaf: usize)
    requires size { length tree.old ≡ 2 * width }
    requires leaf { leaf < 2 * width }
    requires peaks { ArePeaksBut (leaf / 2) width tree.old }
    ensures tree { IsPeakTree width tree.new }
    ensures row { drop width tree.new ≡ drop width tree.old }
{
    let mut at = leaf / 2;
    while at > 0 {
        tree[at] = tree[2 * at].max(tree[2 * at + 1]);
        at /= 2;
    }
}

/// The first node on the way from this place on that isn't below the bound.
fn climb(tree: &[u64], width: usize, from: usize, bound: u64) -> Option<Node>
    requires width { IsWidth width }
    requires tree { IsPeakTree width tree.now }
    requires from { from < width }
    ensures some { IfSome result (λ n. IsReached width from bound tree.now n.at n.span n.start
        × (bound ≤ get_or tree.now n.at 0)) }
    ensures none { IfNone result ((l : ℕ) → width + from ≤ l → l < 2 * width
        → get_or tree.now l 0 < bound) }
{
    let mut at = width + from;
    let mut span = 1;
    let mut start = at;
    while tree[at] < bound {
        at += 1;
        start += span;
        if start >= 2 * width {
            return None;
        }
        if at % 2 == 0 {
            at /= 2;
            span *= 2;
        }
    }
    Some(Node { at, span, start })
}

/// The first place below this node that isn't below the bound.
fn descend(tree: &[u64], width: usize, from: usize, bound: u64, node: Node) -> usize
    requires width { IsWidth width }
    requires tree { IsPeakTree width tree.now }
    requires node { IsReached width from bound tree.now node.at node.span node.start }
    requires here { bound ≤ get_or tree.now node.at 0 }
    ensures { IsFirstAt width from bound tree.now result }
{
    let Node {
        mut at,
        mut span,
        mut start,
    } = node;
    while span > 1 {
        span /= 2;
        at *= 2;
        if tree[at] < bound {
            at += 1;
            start += span;
        }
    }
    start
}

/// The least width of at least n places that this one grows to.
fn grown(width: usize, n: usize) -> usize
    requires width { IsWidth width }
    requires few { n ≤ page_limit }
    ensures width { IsWidth result }
    ensures wide { n ≤ result }
    ensures more { width ≤ result }
{
    let mut grown = width.max(1);
    while grown < n {
        grown *= 2;
    }
    grown
}

/// A tree of so many places, all 0.
fn flat(alloc: Global, width: usize) -> Result<Peaks, AllocError>
    requires { IsWidth width }
    ensures { IfOk result (λ p. p ≡ replicate width 0) }
{
    let mut tree = Vec::with_capacity(alloc, 2 * width)?;
    for place in 0..2 * width {
        let _ = place;
        tree.push_reserved(0);
    }
    Ok(Peaks { alloc, width, tree })
}

/// The same numbers at the first of so many places, and 0 at the others.
fn widened(alloc: Global, old: &Peaks, width: usize) -> Result<Peaks, AllocError>
    requires width { IsWidth width }
    requires wide { length old.now ≤ width }
    ensures same { IfOk result (λ p. (q : ℕ) → get_or p q 0 ≡ get_or old.now q 0) }
    ensures size { IfOk result (λ p. length p ≡ width) }
{
    let mut wider = flat(alloc, width)?;
    for place in 0..old.len() {
        let number = old.at(place);
        if number > 0 {
            wider.set(place, number);
        }
    }
    Ok(wider)
}

impl Peaks {
    /// No places.
    pub(crate) fn new(alloc: Global) -> Peaks
        ensures { result ≡ [] }
    {
        Peaks {
            alloc,
            width: 0,
            tree: Vec::new(alloc),
        }
    }

    /// How many places there are.
    pub(crate) fn len(&self) -> usize
        ensures { result ≡ length self.now }
    {
        self.width
    }

    /// The number at a place, 0 where there is no such place.
    pub(crate) fn at(&self, place: usize) -> u64
        ensures { result ≡ get_or self.now place 0 }
    {
        if place < self.width {
            self.tree[self.width + place]
        } else {
            0
        }
    }

    /// Another number at a place.
    pub(crate) fn set(&mut self, place: usize, number: u64)
        requires { place < length self.old }
        ensures { self.new ≡ slice_set self.old place number }
    {
        let leaf = self.width + place;
        self.tree[leaf] = number;
        settle(&mut self.tree, self.width, leaf);
    }

    /// The first place from `from` on whose number isn't below the bound.
    pub(crate) fn first_from(&self, from: usize, bound: u64) -> Option<usize>
        requires { 0 < bound }
        ensures least { IsLeastIfAny (λ p. (from ≤ p) × (bound ≤ get_or self.now p 0)) result }
        ensures small { IfSome result (λ p. p < 2 ^ 21) }
    {
        if from >= self.width {
            return None;
        }
        let node = climb(&self.tree, self.width, from, bound)?;
        Some(descend(&self.tree, self.width, from, bound, node) - self.width)
    }

    /// Makes room for so many places. Those that there are keep their numbers, the others are 0.
    pub(crate) fn reserve(&mut self, n: usize) -> Result<(), AllocError>
        requires { n ≤ page_limit }
        ensures same { (p : ℕ) → get_or self.new p 0 ≡ get_or self.old p 0 }
        ensures room { OnOk result (n ≤ length self.new) }
        ensures more { length self.old ≤ length self.new }
        ensures ok { n ≤ length self.old → IsOk result }
    {
        if n <= self.width {
            return Ok(());
        }
        let wider = widened(self.alloc, self, grown(self.width, n))?;
        *self = wider;
        Ok(())
    }
}
