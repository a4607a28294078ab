// The order of the keys that a query asks for.
ghost use Rattle.std.specs.Prelude.{◌≡◌, ◌<◌, List, [], false, length, map, IfOk};
ghost use Rattle.std.specs.List.{All};
ghost use Rattle.gin_hits.specs.Rows.{asked_by, asked_for};
ghost use Rattle.gin_hits.specs.Ordered.{AreOrdered, asked_at};
ghost use Rattle.gin_hits.specs.Inner.Keys.{number_cmp};

use std::alloc::{AllocError, Global};
use std::cmp::Ordering;

/// The key with this number, and whether it is a prefix; no bytes where there is none.
pub fn key_at(keys: &[(Vec<u8>, bool)], k: usize) -> (&[u8], bool)
    ensures { asked_for result.0.now result.1 ≡ asked_at keys.now k }
{
    match keys.get(k) {
        Some(key) => (key.0.as_slice(), key.1),
        None => (&[], false),
    }
}

/// The order of two of these keys: a key is before its prefix twin.
fn compare(keys: &[(Vec<u8>, bool)], a: usize, b: usize) -> Ordering
    ensures { result ≡ number_cmp keys.now a b }
{
    let (key, prefix) = key_at(keys, a);
    let (other, other_prefix) = key_at(keys, b);
    key.cmp(other).then(prefix.cmp(&other_prefix))
}

/// The numbers of these keys in their order, each key once.
pub fn in_order(alloc: Global, keys: &[(Vec<u8>, bool)]) -> Result<Vec<usize>, AllocError>
    ensures each { IfOk result (λ order. All (λ k. k < length keys.now) order.items) }
    ensures ordered { IfOk result (λ order. AreOrdered (map asked_by keys.now) (map (asked_at keys.now) order.items)) }
{
    let mut order = Vec::with_capacity(alloc, keys.len())?;
    for k in 0..keys.len() {
        order.push(k)?;
    }
    order.sort_unstable_by(|a, b| compare(keys, *a, *b));
    order.dedup_by(|a, b| compare(keys, *a, *b).is_eq());
    Ok(order)
}
