// The keys of vectors and queries.
ghost use Rattle.std.specs.Prelude.{◌≡◌, [], ◌∷◌, ℕ, map, All, AllPairs, IfOk, OnOk, length, not, replicate};
ghost use Rattle.std.specs.declared.cmp.Ordering.TheVariants.{Less};
ghost use Rattle.ts_base.specs.declared.Tri.TheVariants.{False};
ghost use Rattle.ts_base.specs.Lexemes.{IsLexeme};
ghost use Rattle.ts_base.specs.Keys.{IsKey, keys_of, key_order, placeholder, lexeme_key as key_of};
ghost use Rattle.ts_match.specs.Class.{asked_by, asked_of, is_false, reads_all};

use crate::judging::judge;
use crate::work::MatchWork;
use gin_opclass::QueryKeys;
use std::alloc::{AllocError, Global};
use ts_base::{Lexeme, Tri};
use ts_query::{Operand, TsQuery};
use ts_vector::TsVector;

/// The key of a lexeme: the byte 0 and the lexeme.
fn lexeme_key(alloc: Global, lexeme: &str) -> Result<Vec<u8>, AllocError>
    ensures { IfOk result (λ key. key.items ≡ key_of lexeme.now) }
{
    let mut key = vec![in alloc; 0]?;
    key.extend_from_slice(lexeme.as_bytes())?;
    Ok(key)
}

/// The keys of a vector's lexemes.
fn lexeme_keys(alloc: Global, vector: &TsVector) -> Result<Vec<Vec<u8>>, AllocError>
    ensures { IfOk result (λ keys. map (λ key. key.items) keys.items
        ≡ map (λ entry. key_of entry.lexeme) vector.now) }
{
    let mut keys = Vec::new(alloc);
    for k in 0..vector.count() {
        keys.push(lexeme_key(alloc, vector.lexeme(k))?)?;
    }
    Ok(keys)
}

/// The placeholder alone.
fn placeholder_alone(alloc: Global) -> Result<Vec<Vec<u8>>, AllocError>
    ensures { IfOk result (λ keys. map (λ key. key.items) keys.items ≡ placeholder ∷ []) }
{
    let mut keys = Vec::new(alloc);
    keys.push(vec![in alloc; 1]?)?;
    Ok(keys)
}

/// The keys of a vector in key order, each once; the placeholder alone where it has no lexeme.
pub fn vector_keys(alloc: Global, vector: &TsVector) -> Result<Vec<Vec<u8>>, AllocError>
    ensures keys { IfOk result (λ keys. map (λ key. key.items) keys.items ≡ keys_of vector.now) }
    ensures valid { IfOk result (λ keys. All IsKey (map (λ key. key.items) keys.items)) }
    ensures order { IfOk result (λ keys. AllPairs (λ a b. key_order a b
        ≡ Less) (map (λ key. key.items) keys.items)) }
{
    if vector.count() == 0 {
        return placeholder_alone(alloc);
    }
    lexeme_keys(alloc, vector)
}

/// The key of each operand, with whether it is a prefix.
fn operand_keys(alloc: Global, operands: &[Operand]) -> Result<Vec<(Vec<u8>, bool)>, AllocError>
    ensures keys { IfOk result (λ keys. map (λ key. record { key = key.0.items; prefix = key.1 })
        keys.items ≡ map asked_by operands.now) }
    ensures valid { IfOk result (λ keys. All (λ key. IsKey key.0.items) keys.items) }
{
    let mut keys = Vec::new(alloc);
    for operand in operands {
        keys.push((lexeme_key(alloc, operand.lexeme.as_str())?, operand.prefix))?;
    }
    Ok(keys)
}

/// So many values, each False.
fn all_false(alloc: Global, count: usize) -> Result<Vec<Tri>, AllocError>
    ensures { IfOk result (λ values. values.items ≡ replicate count False) }
{
    vec![in alloc; Tri::False; count]
}

/// Whether an answer is not False.
fn is_possible(answer: Tri) -> bool
    ensures { result ≡ not (is_false answer) }
{
    match answer {
        Tri::False => false,
        _ => true,
    }
}

/// Whether not even False for each operand excludes a vector.
fn needs_all(alloc: Global, query: &TsQuery) -> Result<bool, AllocError>
    ensures { IfOk result (λ all. all ≡ reads_all query.now) }
{
    let values = all_false(alloc, query.operands().len())?;
    let mut work = MatchWork::new(alloc, query)?;
    let answer = judge(query, &mut work, &values);
    Ok(is_possible(answer))
}

/// A key for each operand of the query in the order of the text, with whether it is a prefix; and whether the whole
/// index is read.
pub fn query_keys(alloc: Global, query: &TsQuery) -> Result<QueryKeys, AllocError>
    ensures keys { IfOk result (λ k. map (λ key. record { key = key.0.items; prefix = key.1 })
        k.keys.items ≡ asked_of query.now) }
    ensures valid { IfOk result (λ k. All (λ key. IsKey key.0.items) k.keys.items) }
    ensures all { IfOk result (λ k. k.all ≡ reads_all query.now) }
{
    let keys = operand_keys(alloc, query.operands())?;
    let all = needs_all(alloc, query)?;
    Ok(QueryKeys { keys, all })
}
