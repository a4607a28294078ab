// How items are judged by the keys that were read of them.
ghost use Rattle.std.specs.Prelude.{◌≡◌, ◌↔◌, ◌⊎◌, ℕ, ◌<◌, ◌≤◌, ◌||◌, ◌++◌, List, Bool, IsTrue, cond, length, map};
ghost use Rattle.std.specs.Prelude.{IfOk, OnOk};
ghost use Rattle.std.specs.List.{All, AllPairs};
ghost use Rattle.ts_base.specs.declared.Tri.TheVariants.{True, False, Maybe};
ghost use Rattle.core_state.specs.Log.{In};
ghost use Rattle.gin_opclass.specs.Class.{Asked, meaning, JudgeIsSound};
ghost use Rattle.core_moments.specs.Walk.{Walk};
ghost use Rattle.core_moments.specs.Judging.{values as values_of};
ghost use Rattle.gin_hits.specs.Sides.{Side, AreInOrder, TellOf, TellOfWalk, IsVerdictBy, IsVerdictAlone, IsVerdict};
ghost use Rattle.gin_hits.specs.Sides.{WasRead, MayBeKept, AreKeptOf};
ghost use Rattle.gin_hits.specs.Judged.{AreJudged};

use crate::hits::{Hits, has};
use crate::near::{has_near, near_at, remember};
use gin_opclass::{CompareKeys, Judge, Meaning, OpClass};
use std::alloc::{AllocError, Global};
use ts_base::Tri;

/// What is known of an item without its vector: whether it is kept, and whether it satisfies the query
/// for sure.
#[derive(Clone, Copy)]
pub(crate) struct Verdict {
    pub(crate) kept: bool,
    pub(crate) yes: bool,
}

/// What items are judged with, one after another: a value for each key that is asked, and near which number of its
/// list the next item is sought, on either side. These numbers are right or not, and nothing rests on them.
#[derive(Drop)]
struct Judging {
    values: Vec<Tri>,
    pending: Vec<usize>,
    main: Vec<usize>,
}

impl Judging {
    /// For so many keys, of which no item was judged.
    fn new(alloc: Global, count: usize) -> Result<Judging, AllocError>
        ensures { IfOk result (λ j. length j.values.items ≡ count) }
    {
        let values = vec![in alloc; Tri::False; count]?;
        let pending = vec![in alloc; 0; count]?;
        let main = vec![in alloc; 0; count]?;
        Ok(Judging {
            values,
            pending,
            main,
        })
    }
}

/// The verdict of two, of which each keeps an item and says a yes.
fn either(a: Verdict, b: Verdict) -> Verdict
    ensures kept { result.kept ≡ (a.kept || b.kept) }
    ensures yes { result.yes ≡ (a.yes || b.yes) }
{
    Verdict {
        kept: a.kept || b.kept,
        yes: a.yes || b.yes,
    }
}

/// True where the list, which is in order, has the item, else this value; and near which number the next is sought.
fn value_of(items: &[u32], near: usize, item: u32, absent: Tri) -> (Tri, usize)
    requires { AllPairs (λ i j. i ≤ j) items.now }
    ensures { (b : Bool) × (IsTrue b ↔ In item items.now) × (result.0 ≡ cond b True absent) }
{
    let (is_there, at) = has_near(items, near, item);
    if is_there {
        (Tri::True, at)
    } else {
        (absent, at)
    }
}

/// A value for each key that is asked: True where the item has one that fits, else this one.
fn put_values(values: &mut Vec<Tri>, hits: &Hits, near: &mut Vec<usize>, item: u32, absent: Tri)
    requires lists { length hits.now.by_key.items ≡ length values.old.items }
    requires in_order { AreInOrder hits.now }
    ensures count { length values.new.items ≡ length values.old.items }
    ensures values { (asked : List Asked) (side : Side) → TellOf asked side hits.now
        → values.new.items ≡ values_of (side.has item) absent asked }
{
    for k in 0..values.len() {
        let (value, at) = value_of(&hits.by_key[k], near_at(near, k), item, absent);
        values[k] = value;
        remember(near, k, at);
    }
}

/// The judge's answer by one side, where an absent key counts as this.
fn answer_by<Q, W: Meaning<Q>, C: CompareKeys, J: Judge<Q, W>>(
    class: &OpClass<Q, W, C, J>,
    query: &Q,
    work: &mut W,
    values: &mut Vec<Tri>,
    hits: &Hits,
    near: &mut Vec<usize>,
    item: u32,
    absent: Tri,
) -> Tri
    requires serves { J.serves work.old query.now }
    requires each { length values.old.items ≡ length (W.asked query.now) }
    requires lists { length hits.now.by_key.items ≡ length values.old.items }
    requires in_order { AreInOrder hits.now }
    ensures serves { J.serves work.new query.now }
    ensures count { length values.new.items ≡ length values.old.items }
    ensures answer { (side : Side) → TellOf (W.asked query.now) side hits.now
        → result ≡ W.judged query.now (values_of (side.has item) absent (W.asked query.now)) }
{
    put_values(values, hits, near, item, absent);
    class.judge(query, work, values.as_slice())
}

/// The verdict of one side, where an absent key counts as this for a yes.
fn judge_by<Q, W: Meaning<Q>, C: CompareKeys, J: Judge<Q, W>>(
    class: &OpClass<Q, W, C, J>,
    query: &Q,
    work: &mut W,
    values: &mut Vec<Tri>,
    hits: &Hits,
    near: &mut Vec<usize>,
    item: u32,
    absent: Tri,
) -> Verdict
    requires serves { J.serves work.old query.now }
    requires each { length values.old.items ≡ length (W.asked query.now) }
    requires lists { length hits.now.by_key.items ≡ length values.old.items }
    requires in_order { AreInOrder hits.now }
    ensures serves { J.serves work.new query.now }
    ensures count { length values.new.items ≡ length values.old.items }
    ensures verdict { (side : Side) → TellOf (W.asked query.now) side hits.now
        → IsVerdictBy (meaning W.asked W.all W.satisfies W.judged) query.now side item absent
        result }
{
    let answer = answer_by(class, query, work, values, hits, near, item, Tri::False);
    let sure = answer_by(class, query, work, values, hits, near, item, absent);
    Verdict {
        kept: answer != Tri::False,
        yes: sure == Tri::True,
    }
}

/// The verdict on an item that this side alone judges: of one that is left out it doesn't matter whether it satisfies
/// the query for sure.
fn judge_alone<Q, W: Meaning<Q>, C: CompareKeys, J: Judge<Q, W>>(
    class: &OpClass<Q, W, C, J>,
    query: &Q,
    work: &mut W,
    values: &mut Vec<Tri>,
    hits: &Hits,
    near: &mut Vec<usize>,
    item: u32,
    absent: Tri,
) -> Verdict
    requires serves { J.serves work.old query.now }
    requires each { length values.old.items ≡ length (W.asked query.now) }
    requires lists { length hits.now.by_key.items ≡ length values.old.items }
    requires in_order { AreInOrder hits.now }
    ensures serves { J.serves work.new query.now }
    ensures count { length values.new.items ≡ length values.old.items }
    ensures verdict { (side : Side) → TellOf (W.asked query.now) side hits.now
        → IsVerdictAlone (meaning W.asked W.all W.satisfies W.judged) query.now side item absent
        result }
{
    let possible = answer_by(class, query, work, values, hits, near, item, Tri::False);
    if possible == Tri::False {
        return Verdict {
            kept: false,
            yes: false,
        };
    }
    let known = answer_by(class, query, work, values, hits, near, item, absent);
    Verdict {
        kept: true,
        yes: known == Tri::True,
    }
}

/// The verdict on an item. The first row's document may have rows before it, which are in the main part
/// now, so both sides have a say; each other item is judged where it was met.
fn judge_item<Q, W: Meaning<Q>, C: CompareKeys, J: Judge<Q, W>>(
    class: &OpClass<Q, W, C, J>,
    query: &Q,
    work: &mut W,
    judging: &mut Judging,
    pending: &Hits,
    main: &Hits,
    first_item: Option<u32>,
    item: u32,
) -> Verdict
    requires serves { J.serves work.old query.now }
    requires each { length judging.old.values.items ≡ length (W.asked query.now) }
    requires pending { (length pending.now.by_key.items ≡ length judging.old.values.items)
        × AreInOrder pending.now }
    requires main { (length main.now.by_key.items ≡ length judging.old.values.items)
        × AreInOrder main.now }
    requires any { AllPairs (λ i j. i ≤ j) pending.now.any.items }
    ensures serves { J.serves work.new query.now }
    ensures count { length judging.new.values.items ≡ length judging.old.values.items }
    ensures verdict { (w : Walk)
        → TellOfWalk (W.asked query.now) w pending.now main.now first_item → WasRead w item
        → IsVerdict (meaning W.asked W.all W.satisfies W.judged) query.now w item result }
{
    let Judging {
        values,
        pending: near_pending,
        main: near_main,
    } = judging;
    if first_item == Some(item) {
        let listed = judge_by(
            class,
            query,
            work,
            values,
            pending,
            near_pending,
            item,
            Tri::Maybe,
        );
        let moved = judge_by(
            class,
            query,
            work,
            values,
            main,
            near_main,
            item,
            Tri::Maybe,
        );
        return either(listed, moved);
    }
    if has(pending.any.as_slice(), item) {
        return judge_alone(
            class,
            query,
            work,
            values,
            pending,
            near_pending,
            item,
            Tri::False,
        );
    }
    judge_alone(
        class,
        query,
        work,
        values,
        main,
        near_main,
        item,
        Tri::Maybe,
    )
}

/// Adds the items of each of these lists.
fn add_all(items: &mut Vec<u32>, lists: &[Vec<u32>]) -> Result<(), AllocError>
    ensures { OnOk result ((i : ℕ) → In i items.new.items
        ↔ (In i items.old.items ⊎ ((list : List ℕ) × In list (map (λ v. v.items) lists.now)
        × In i list))) }
{
    for list in lists {
        items.extend_from_slice(list.as_slice())?;
    }
    Ok(())
}

/// Adds the items that may be kept. Where the whole index isn't read these are those with a key that fits one that is
/// asked, since the judge answers False where there is none.
fn add_possible(
    items: &mut Vec<u32>,
    pending: &Hits,
    main: &Hits,
    all: bool,
) -> Result<(), AllocError>
    ensures { OnOk result ((i : ℕ) → In i items.new.items
        ↔ (In i items.old.items ⊎ MayBeKept all pending.now main.now i)) }
{
    if all {
        items.extend_from_slice(pending.any.as_slice())?;
        return items.extend_from_slice(main.any.as_slice());
    }
    add_all(items, pending.by_key.as_slice())?;
    add_all(items, main.by_key.as_slice())
}

/// The items that may be kept, rising.
fn items_of(alloc: Global, pending: &Hits, main: &Hits, all: bool) -> Result<Vec<u32>, AllocError>
    ensures rising { IfOk result (λ v. AllPairs (λ i j. i < j) v.items) }
    ensures just { IfOk result (λ v. (i : ℕ)
        → In i v.items ↔ MayBeKept all pending.now main.now i) }
{
    let mut items = Vec::new(alloc);
    add_possible(&mut items, pending, main, all)?;
    items.sort()?;
    items.dedup();
    Ok(items)
}

/// Adds those of the items that are kept, each with whether it satisfies the query for sure.
fn add_kept<Q, W: Meaning<Q>, C: CompareKeys, J: Judge<Q, W>>(
    class: &OpClass<Q, W, C, J>,
    query: &Q,
    work: &mut W,
    judging: &mut Judging,
    pending: &Hits,
    main: &Hits,
    first_item: Option<u32>,
    items: &[u32],
    kept: &mut Vec<(u32, bool)>,
) -> Result<(), AllocError>
    requires serves { J.serves work.old query.now }
    requires each { length judging.old.values.items ≡ length (W.asked query.now) }
    requires pending { (length pending.now.by_key.items ≡ length judging.old.values.items)
        × AreInOrder pending.now }
    requires main { (length main.now.by_key.items ≡ length judging.old.values.items)
        × AreInOrder main.now }
    requires any { AllPairs (λ i j. i ≤ j) pending.now.any.items }
    ensures serves { J.serves work.new query.now }
    ensures kept { OnOk result ((w : Walk)
        → TellOfWalk (W.asked query.now) w pending.now main.now first_item
        → All (WasRead w) items.now → (more : List (ℕ × Bool))
        × (kept.new.items ≡ kept.old.items ++ more)
        × AreKeptOf (meaning W.asked W.all W.satisfies W.judged) query.now w items.now more) }
{
    for item in items {
        let verdict = judge_item(
            class, query, work, judging, pending, main, first_item, *item,
        );
        if verdict.kept {
            kept.push((*item, verdict.yes))?;
        }
    }
    Ok(())
}

/// Adds those of the items that were met which are kept, rising, each with whether it satisfies the query
/// for sure.
pub fn judge_met<Q, W: Meaning<Q>, C: CompareKeys, J: Judge<Q, W>>(
    alloc: Global,
    class: &OpClass<Q, W, C, J>,
    query: &Q,
    work: &mut W,
    pending: &Hits,
    main: &Hits,
    first_item: Option<u32>,
    all: bool,
    kept: &mut Vec<(u32, bool)>,
) -> Result<(), AllocError>
    requires serves { J.serves work.old query.now }
    requires pending { (length pending.now.by_key.items ≡ length (W.asked query.now))
        × AreInOrder pending.now }
    requires main { (length main.now.by_key.items ≡ length (W.asked query.now)) × AreInOrder main.now }
    requires any { AllPairs (λ i j. i ≤ j) pending.now.any.items }
    ensures serves { J.serves work.new query.now }
    ensures judged { OnOk result (AreJudged (meaning W.asked W.all W.satisfies W.judged) query.now all
        pending.now main.now first_item kept.old.items kept.new.items) }
{
    let items = items_of(alloc, pending, main, all)?;
    let mut judging = Judging::new(alloc, pending.by_key.len())?;
    add_kept(
        class,
        query,
        work,
        &mut judging,
        pending,
        main,
        first_item,
        items.as_slice(),
        kept,
    )
}
