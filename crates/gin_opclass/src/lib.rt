//! What an index asks of a class of queries: the order of its keys, and a judge that is sound.
#![tactic(auto)]

ghost use Rattle.std.specs.Prelude.{◌≡◌, List, Bool, length};
ghost use Rattle.ts_base.specs.Vectors.{Vector};
ghost use Rattle.ts_base.specs.declared.Tri.{Tri};
ghost use Rattle.ts_base.specs.Keys.{key_order};
ghost use Rattle.gin_opclass.specs.Class.{Asked, meaning, JudgeIsSound};
ghost use Rattle.gin_opclass.specs.NoQuery.{no_query};

use std::cmp::Ordering;
use std::marker::PhantomData;
use ts_base::Tri;

/// The keys that a query asks for, one for each operand, each with whether it is a prefix; and whether the whole
/// index is read.
#[derive(Debug, Drop)]
pub struct QueryKeys {
    /// A key for each operand, and whether it is a prefix.
    pub keys: Vec<(Vec<u8>, bool)>,
    /// Whether the whole index is read.
    pub all: bool,
}

/// What the queries of a class mean: the keys of a query, whether it reads the whole index,
/// the vectors that satisfy it, and the answer of its judge to a value for each key.
pub trait Meaning<Q> {
    /// The keys that a query asks for.
    ghost asked: { Q → List Asked };

    /// Whether a query reads the whole index.
    ghost all: { Q → Bool };

    /// Which vectors satisfy a query.
    ghost satisfies: { Q → Vector → Type 0 };

    /// The answer of the judge.
    ghost judged: { Q → List Tri → Tri };
}

/// A comparison of lists of bytes. A walk over a whole index begins with the empty list, which is no key.
pub trait CompareKeys {
    /// The order of two lists of bytes, keys or not.
    fn compare(&self, a: &[u8], b: &[u8]) -> Ordering
        ensures { result ≡ key_order a.now b.now };
}

/// A judge of queries whose meaning W names.
pub trait Judge<Q, W: Meaning<Q>> {
    /// The work can be used for the query.
    ghost serves: { W → Q → Type 0 };

    /// The answer for a query, by a value for each of its keys.
    fn judge(&self, query: &Q, work: &mut W, values: &[Tri]) -> Tri
        requires serves { serves work.old query.now }
        requires each { length values.now ≡ length (W.asked query.now) }
        ensures answer { result ≡ W.judged query.now values.now }
        ensures serves { serves work.new query.now };

    /// Its answers are sound.
    ghost sound: { JudgeIsSound (meaning W.asked W.all W.satisfies W.judged) };
}

/// A comparison of keys and a sound judge.
#[derive(Drop)]
pub struct OpClass<Q, W, C, J> {
    compare: C,
    judge: J,
    queries: PhantomData<Q>,
    works: PhantomData<W>,
}

impl<Q, W: Meaning<Q>, C: CompareKeys, J: Judge<Q, W>> OpClass<Q, W, C, J> {
    /// The class of these two.
    pub fn new(compare: C, judge: J) -> OpClass<Q, W, C, J>
        ensures compare { result.compare ≡ compare }
        ensures judge { result.judge ≡ judge }
        ensures sound { JudgeIsSound (meaning W.asked W.all W.satisfies W.judged) }
    {
        OpClass {
            compare,
            judge,
            queries: PhantomData,
            works: PhantomData,
        }
    }

    /// The order of two lists of bytes, keys or not.
    pub fn compare(&self, a: &[u8], b: &[u8]) -> Ordering
        ensures { result ≡ key_order a.now b.now }
    {
        self.compare.compare(a, b)
    }

    /// The answer for a query, by a value for each of its keys.
    pub fn judge(&self, query: &Q, work: &mut W, values: &[Tri]) -> Tri
        requires serves { J.serves work.old query.now }
        requires each { length values.now ≡ length (W.asked query.now) }
        ensures answer { result ≡ W.judged query.now values.now }
        ensures serves { J.serves work.new query.now }
    {
        self.judge.judge(query, work, values)
    }
}

/// Keys by their bytes: the first byte that differs decides, and a proper prefix is first.
#[derive(Clone, Copy, Debug, Default)]
pub struct Bytewise;

impl CompareKeys for Bytewise {
    fn compare(&self, a: &[u8], b: &[u8]) -> Ordering {
        a.cmp(b)
    }
}

/// What queries mean that ask for nothing and that nothing satisfies, and the judge who says so.
#[derive(Drop)]
pub struct NoQuery;

impl Meaning<()> for NoQuery {
    ghost use Rattle.gin_opclass.specs.NoQuery.{no_query};

    ghost asked = { no_query.asked };

    ghost all = { no_query.all };

    ghost satisfies = { no_query.satisfies };

    ghost judged = { no_query.judged };
}

impl Judge<(), NoQuery> for NoQuery {
    ghost use Rattle.gin_opclass.specs.NoQuery.{no_is_sound};

    ghost serves = { λ _ _. Unit {0} };

    /// No.
    fn judge(&self, _query: &(), _work: &mut NoQuery, _values: &[Tri]) -> Tri {
        Tri::False
    }

    ghost sound = { no_is_sound };
}

/// Keys by their bytes, and no query: for what looks at the pages of an index and asks nothing.
pub type KeyClass = OpClass<(), NoQuery, Bytewise, NoQuery>;

/// The one class of this type.
pub fn key_class() -> KeyClass
    ensures { JudgeIsSound no_query }
{
    OpClass::new(Bytewise, NoQuery)
}
