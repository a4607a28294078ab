// Whether a vector satisfies a query, by the work of its judge.
ghost use Rattle.std.specs.Prelude.{◌≡◌, ◌↔◌, IsTrue};
ghost use Rattle.ts_base.specs.Encoding.{IsEncoding};
ghost use Rattle.ts_base.specs.Vectors.{Vector};
ghost use Rattle.ts_match.specs.Meaning.{Holds};
ghost use Rattle.ts_match.specs.Plan.{plan_of};
ghost use Rattle.gin_scan.specs.Inner.Heads.{TellsOf};

use crate::lexemes::judge_own;
use gin_opclass::{Judge, Meaning};
use ts_base::Tri;
use ts_match::{MatchWork, TextJudge, matches_encoded};
use ts_query::TsQuery;
use ts_vector::VectorBytes;

/// Whether a vector satisfies a query whose meaning W names, by the work that a judge of such queries
/// uses.
pub trait Check<Q, W: Meaning<Q>, J: Judge<Q, W>> {
    /// Whether these bytes encode a vector that satisfies the query. It takes no memory.
    fn check(&self, query: &Q, work: &mut W, bytes: &[u8]) -> bool
        requires serves { J.serves work.old query.now }
        ensures tells { TellsOf (W.satisfies query.now) bytes.now result }
        ensures serves { J.serves work.new query.now };
}

/// The check of text queries.
#[derive(Clone, Copy)]
pub struct TextCheck;

/// Whether these bytes encode a vector. They are read where they lie.
fn encode_vector(bytes: &[u8]) -> bool
    ensures { IsTrue result ↔ ((v : Vector) × IsEncoding bytes.now v) }
{
    let vector = VectorBytes::new(bytes);
    vector.is_ok()
}

/// Whether these bytes encode a vector that satisfies the query. Bytes that encode none do not.
fn matches_bytes(query: &TsQuery, work: &mut MatchWork, bytes: &[u8]) -> bool
    requires { work.old ≡ plan_of query.now }
    ensures tells { TellsOf (Holds query.now) bytes.now result }
    ensures work { work.new ≡ work.old }
{
    match VectorBytes::new(bytes) {
        Ok(vector) => matches_encoded(query, work, &vector),
        Err(_) => false,
    }
}

impl Check<TsQuery, MatchWork, TextJudge> for TextCheck {
    fn check(&self, query: &TsQuery, work: &mut MatchWork, bytes: &[u8]) -> bool {
        match judge_own(query, work, bytes) {
            Tri::True => encode_vector(bytes),
            Tri::False => false,
            Tri::Maybe => matches_bytes(query, work, bytes),
        }
    }
}
