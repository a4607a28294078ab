// Whether a row has a key that fits one that is asked.
ghost use Rattle.std.specs.Prelude.{◌≡◌, ◌↔◌, ℕ, ◌<◌, ◌≤◌, [], length, get_or, IsTrue};
ghost use Rattle.std.specs.List.{list_any};
ghost use Rattle.page_types.specs.Keys.{KeyLess, Rising};
ghost use Rattle.page_types.specs.Parts.{pieces_shown};
ghost use Rattle.core_moments.specs.Judging.{fits_asked};
ghost use Rattle.gin_hits.specs.Rows.{asked_for};
ghost use Rattle.gin_hits.specs.Inner.Searching.{IsBetween};

use gin_opclass::{CompareKeys, Judge, Meaning, OpClass};
use page_types::PiecesRef;

/// How many of the keys of a row, which rise, are below this one.
fn below<Q, W: Meaning<Q>, C: CompareKeys, J: Judge<Q, W>>(
    keys: PiecesRef<'_>,
    class: &OpClass<Q, W, C, J>,
    key: &[u8],
) -> usize
    requires { Rising KeyLess (pieces_shown keys) }
    ensures { IsBetween key.now (pieces_shown keys.entry) result result }
{
    let mut low = 0;
    let mut high = keys.len();
    while low < high {
        let middle = low + (high - low) / 2;
        if class.compare(keys.at(middle), key).is_lt() {
            low = middle + 1;
        } else {
            high = middle;
        }
    }
    low
}

/// Whether a key is this one, or begins with it where it is a prefix.
pub(crate) fn fits(key: &[u8], asked: &[u8], prefix: bool) -> bool
    ensures { result ≡ fits_asked (asked_for asked.now prefix) key.now }
{
    if prefix {
        return key.starts_with(asked);
    }
    key == asked
}

/// Whether one of the keys of a row, which rise, fits the asked one.
pub(crate) fn has_fitting<Q, W: Meaning<Q>, C: CompareKeys, J: Judge<Q, W>>(
    keys: PiecesRef<'_>,
    class: &OpClass<Q, W, C, J>,
    asked: &[u8],
    prefix: bool,
) -> bool
    requires { Rising KeyLess (pieces_shown keys) }
    ensures { result ≡ list_any (fits_asked (asked_for asked.now prefix)) (pieces_shown keys.entry) }
{
    let place = below(keys, class, asked);
    place < keys.len() && fits(keys.at(place), asked, prefix)
}
