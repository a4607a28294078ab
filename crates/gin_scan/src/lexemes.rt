// What the lexemes of an encoded vector say of a query, read where they lie. The bytes are not checked.
ghost use Rattle.std.specs.Prelude.{◌≡◌, ◌<◌, All, drop, take, length};
ghost use Rattle.std.specs.List.{flat_map};
ghost use Rattle.ts_base.specs.Encoding.{IsEncoding, entry_bytes};
ghost use Rattle.ts_base.specs.Vectors.{Vector, IsEntry};
ghost use Rattle.gin_opclass.specs.Class.{SoundValue};
ghost use Rattle.ts_match.specs.Judging.{has_lexeme};
ghost use Rattle.ts_match.specs.Laws.JudgeLaw.{NamesSome};
ghost use Rattle.ts_match.specs.Meaning.{names as names_lexeme, Holds};
ghost use Rattle.ts_match.specs.Plan.{plan_of};
ghost use Rattle.ts_vector.specs.Inner.Told.{number_told, lexeme_told, behind_lexeme, behind_places};

use ts_base::Tri;
use ts_match::{MatchWork, judge};
use ts_query::{Operand, TsQuery};

/// The first bytes, so many, and the rest; all of them where there are fewer.
fn front(bytes: &[u8], count: usize) -> (&[u8], &[u8])
    ensures first { result.0.now ≡ take count bytes.now }
    ensures rest { result.1.now ≡ drop count bytes.now }
{
    if bytes.len() < count {
        return (bytes, &[]);
    }
    bytes.split_at(count)
}

/// The number in the first two bytes, the little end first, and the rest; 0 where there are fewer.
fn first_number(bytes: &[u8]) -> (usize, &[u8])
    ensures number { result.0 ≡ number_told bytes.now }
    ensures rest { result.1.now ≡ drop 2 bytes.now }
    ensures small { result.0 < 65536 }
{
    if bytes.len() < 2 {
        return (0, &[]);
    }
    let number = usize::from(bytes[1]) * 256 + usize::from(bytes[0]);
    let (_, rest) = bytes.split_at(2);
    (number, rest)
}

/// The lexeme of the first entry, and the entries after it.
fn first_lexeme(bytes: &[u8]) -> (&[u8], &[u8])
    ensures lexeme { result.0.now ≡ lexeme_told bytes.now }
    ensures rest { result.1.now ≡ behind_places (behind_lexeme bytes.now) }
{
    let (length, rest) = first_number(bytes);
    let (lexeme, rest) = front(rest, length);
    let (count, rest) = first_number(rest);
    let (_, rest) = front(rest, 2 * count);
    (lexeme, rest)
}

/// Whether the operand names the lexeme with these bytes.
fn names(operand: &Operand, lexeme: &[u8]) -> bool
    ensures { result ≡ names_lexeme operand.now lexeme.now }
{
    let asked = operand.lexeme.as_str().as_bytes();
    if operand.prefix {
        return lexeme.starts_with(asked);
    }
    lexeme == asked
}

/// Whether one of these entries has a lexeme that the operand names.
fn has_named(operand: &Operand, entries: &[u8]) -> bool
    ensures { (v : Vector) → All IsEntry v → entries.now ≡ flat_map entry_bytes v
        → result ≡ has_lexeme operand.now v }
{
    let mut rest = entries;
    while !rest.is_empty() {
        let (lexeme, after) = first_lexeme(rest);
        if names(operand, lexeme) {
            return true;
        }
        rest = after;
    }
    false
}

/// The value of an operand by these entries.
fn own_value(operand: &Operand, entries: &[u8]) -> Tri
    ensures { (v : Vector) → All IsEntry v → entries.now ≡ flat_map entry_bytes v
        → SoundValue (NamesSome v operand.now) result }
{
    if has_named(operand, entries) {
        Tri::True
    } else {
        Tri::False
    }
}

/// The judge's answer by the lexemes of the vector that these bytes encode. Only queries of one operand or two are
/// judged so, since their values take no memory; of others the answer is Maybe.
pub(crate) fn judge_own(query: &TsQuery, work: &mut MatchWork, bytes: &[u8]) -> Tri
    requires { work.old ≡ plan_of query.now }
    ensures answer { (v : Vector) → IsEncoding bytes.now v → SoundValue (Holds query.now v) result }
    ensures work { work.new ≡ work.old }
{
    let (_, entries) = front(bytes, 4);
    let operands = query.operands();
    if operands.len() == 1 {
        let one = own_value(&operands[0], entries);
        return judge(query, work, &[one]);
    }
    if operands.len() == 2 {
        let one = own_value(&operands[0], entries);
        let other = own_value(&operands[1], entries);
        return judge(query, work, &[one, other]);
    }
    Tri::Maybe
}
