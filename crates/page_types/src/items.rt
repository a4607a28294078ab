// Item lists, read from left to right.
ghost use Rattle.std.specs.Prelude.{◌≡◌, ◌^◌, ◌+◌, ◌<◌, ◌≤◌, ℕ, List, length, IfSome, IfOk, IfErr, MatchResult, Ok};
ghost use Rattle.std.specs.Prelude.{Err};
ghost use Rattle.std.specs.Option.{option_map};
ghost use Rattle.page_types.specs.ItemReading.{number_end, number_within, raised, item_at, items_within, last_or};

use crate::ITEM_LIMIT;

/// The bytes after the first that is below 128.
fn skip(bytes: &[u8]) -> Option<&[u8]>
    ensures { option_map (λ rest. rest.now) result ≡ number_end bytes.now }
{
    let mut rest = bytes;
    while let [b, after @ ..] = rest {
        if *b < 128 {
            return Some(after);
        }
        rest = after;
    }
    None
}

/// A number with seven low bits more.
fn raise(low: u64, high: Option<u64>, most: u32) -> Option<u64>
    requires low { low < 128 }
    requires most { most ≤ 4 }
    requires high { IfSome high (λ n. n < 128 ^ most) }
    ensures value { result ≡ raised low high }
    ensures bound { IfSome result (λ n. n < 128 ^ (most + 1)) }
{
    match high {
        None => None,
        Some(0) => None,
        Some(n) => Some(low + 128 * n),
    }
}

/// The varbyte that the bytes begin with, and the bytes after it.
fn number_in(bytes: &[u8], most: u32) -> Option<(Option<u64>, &[u8])>
    requires { most ≤ 5 }
    ensures value { option_map (λ x. (x.0, x.1.now)) result ≡ number_within most bytes.now }
    ensures bound { IfSome result (λ x. IfSome x.0 (λ n. n < 128 ^ most)) }
{
    if most == 0 {
        return match skip(bytes) {
            None => None,
            Some(rest) => Some((None, rest)),
        };
    }
    match bytes {
        [] => None,
        [b, rest @ ..] => {
            if *b < 128 {
                return Some((Some(u64::from(*b)), rest));
            }
            match number_in(rest, most - 1) {
                None => None,
                Some((high, after)) => Some((raise(u64::from(*b - 128), high, most - 1), after)),
            }
        }
    }
}

/// The varbyte that the bytes begin with, of at most five bytes, and the bytes after it. Most often it
/// has one or two.
fn first_number(bytes: &[u8]) -> Option<(Option<u64>, &[u8])>
    ensures value { option_map (λ x. (x.0, x.1.now)) result ≡ number_within 5 bytes.now }
    ensures bound { IfSome result (λ x. IfSome x.0 (λ n. n < 128 ^ 5)) }
{
    match bytes {
        [low, rest @ ..] if *low < 128 => Some((Some(u64::from(*low)), rest)),
        [low, high, rest @ ..] if *low >= 128 && *high < 128 => {
            let low = u64::from(*low - 128);
            Some((raise(low, Some(u64::from(*high)), 1), rest))
        }
        _ => number_in(bytes, 5),
    }
}

/// The next item of a list after the item `last`, 0 before the first, and the bytes after it; else how many bytes are
/// left before the varbyte that is refused, 0 where they end within it. It takes no memory.
#[tactic(auto, unfolding(crate::specs::ItemReading::item_at))]
pub fn next_item(last: u32, bytes: &[u8]) -> Result<(u32, &[u8]), usize>
    ensures next { MatchResult result (λ x. item_at last bytes.now ≡ Ok (x.0, x.1.now))
        (λ left. item_at last bytes.now ≡ Err left) }
    ensures left { IfErr result (λ left. left ≤ length bytes.now) }
{
    match first_number(bytes) {
        None => Err(0),
        Some((None, _)) => Err(bytes.len()),
        Some((Some(n), rest)) => {
            if n > 0 && u64::from(last) + n < u64::from(ITEM_LIMIT) {
                Ok(((u64::from(last) + n) as u32, rest))
            } else {
                Err(bytes.len())
            }
        }
    }
}

/// What was read of an item list.
#[derive(Clone, Copy, Debug)]
pub struct ItemsRead<'a> {
    /// How many items.
    pub count: usize,
    /// The last of them, or 0.
    pub last: u32,
    /// The bytes after them.
    pub rest: &'a [u8],
}

/// The items of a list, at most so many, up to the end of the bytes; else how many bytes are left before the varbyte
/// that is refused, 0 where they end within it. It takes no memory.
pub fn read_items(most: usize, bytes: &[u8]) -> Result<ItemsRead<'_>, usize>
    ensures read { IfOk result (λ x. (is : List ℕ)
        × (items_within most 0 bytes.now ≡ Ok (is, x.rest.now))
        × (x.count ≡ length is) × (x.last ≡ last_or 0 is)) }
    ensures fault { IfErr result (λ left. items_within most 0 bytes.now ≡ Err left) }
    ensures left { IfErr result (λ left. left ≤ length bytes.now) }
{
    let mut rest = bytes;
    let mut last = 0;
    let mut count = 0;
    while count < most && !rest.is_empty() {
        let (item, after) = next_item(last, rest)?;
        last = item;
        rest = after;
        count += 1;
    }
    Ok(ItemsRead { count, last, rest })
}
