// Whether vectors satisfy queries, and which keys they have.
use crate::kinds::{Kind, try_rows};
use crate::rows::cut;
use std::alloc::{AllocError, Global};
use std::test::Fail;
use ts_base::Tri;
use ts_match::{MatchWork, judge, matches, matches_encoded, query_keys, text_class, vector_keys};
use ts_query::TsQuery;
use ts_vector::{TsVector, VectorBytes};

/// Queries, vectors, and whether the vector satisfies the query: `t` or `f`.
const MEANINGS: &str = "\
    a @ a:1=t;a @ ab:1=f;a:* @ ab:1=t;ab:* @ a:1=f;b:* @ a:1 ba:2 bc:3 c:4=t;a & b @ a:1=f;a | b @ b:1=t;\
    !b @ a:1=t;a <-> b @ a:1 b:2=t;a <-> b @ a:2 b:1=f;a <-> b @ a:1 b:3=f;a <2> b @ a:1 b:3=t;\
    a <0> b @ a:4 b:4=t;a <-> a @ a:1 a:2=t;a <-> a @ a:1=f;a <-> b @ a:3 a:7 b:1 b:5 b:8=t;\
    a <-> b <-> c @ a:1 b:2 c:3=t;a <-> b <-> c @ a:1 b:2 c:4=f;a <-> (b <-> c) @ a:1 b:2 c:3=t;\
    a <-> (b <-> c) @ a:2 b:2 c:3=f;a <-> (b <2> c) @ a:1 b:2 c:4=t;(a <2> b) <3> (c <-> d) @ a:1 b:3 c:6 d:7=t;\
    (a <2> b) <3> (c <-> d) @ a:1 b:3 c:5 d:6=f;(a | b) <-> c @ b:1 c:2=t;(a | b) <-> c @ a:1 b:3 c:3=f;\
    a <-> (b | c) @ a:4 b:1 c:5=t;((a <2> b) | c) <-> d @ c:1 d:4=t;((a <2> b) | c) <-> d @ c:3 d:4=f;\
    ((a <2> b) & c) <-> d @ a:1 b:3 c:1 d:4=t;((a <2> b) & c) <-> d @ a:1 b:3 c:3 d:4=f;\
    (x & y) <-> z @ x:1 y:1 z:2=t;(x & y) <-> z @ x:1 y:2 z:3=f;!x <-> y @ x:1 a:2 y:3=t;!x <-> y @ x:1 y:2=f;\
    !x <-> y @ y:1=t;!a <-> !b @ y:1=t;a <-> !b @ a:1 b:2=f;a <-> !b @ a:1 a:4 b:2=t;!(a <-> b) @ a:1 b:3=t;\
    c:* <-> d @ ca:1 cb:5 d:6=t;c:* <-> d @ ca:1 cb:5 d:7=f;(a <-> b) | !c & d @ a:1 b:3 d:9=t;\x20@ a:1=f;\
    a:A @ a:1A=t;a:B @ a:1A=f;a:BA @ a:1,2A=t;a:D @ a:1=t;a:*B @ ab:1 ac:2B=t;a:*B @ ab:1 b:2B=f;\
    a:A <-> b @ a:1A b:2=t;a:A <-> b @ a:1 b:2 a:3A=f;'a b' <-> c @ 'a b':1 c:2=t;a @ a=t;a:ABCD @ a=f;\
    !a:A @ a=t;a:* & c @ ab c=t;a <-> a @ a=f;!a <-> !b @ a=f;!a <-> !b @ c=f;!(a <-> b) @ a b=t;\
    !a <-> b @ a b:2=t;a <-> b @ a b:2=f;a:* <-> b @ ab:1 ac b:2=t;!x @ =t;x:* @ =f;!x <-> !y @ =t;\
    a <63> b @ a:1 b:64=t;a <63> b @ a:1 b:65=f;a <64> b @ a:1 b:65=t;a <64> b @ a:1 b:1=f;\
    a <64> b @ a:63 b:127=t;a <65> b @ a:64 b:129=t;a <65> b @ a:1 b:65=f;a <16382> b @ a:1 b:16383=t;\
    a <16383> b @ a:1 b:16383=f;a <16384> b @ a:1 b:16383=f;!a <16384> b @ a:1 b:16383=t;\
    a <16384> !b @ a:16383 b:1=t;!a <16383> !b @ a:1 b:2=t;\
    a <16384> !b <16384> !b <16384> !b <16384> !b @ a:1=t;a <16384> !b <16384> !b <16384> !b <16384> !b @ b:1=f;\
    a <16384> !b <16384> !b <16384> !b <16384> !b <-> !b @ a:1=t;\
    a <16384> !b <16384> !b <16384> !b <16384> !b <-> !b @ b:1=f;\
    !c <16384> !b <16384> !b <16384> !b <16384> !b <-> a @ a:1=t;(a | b | (c <2> d)) <-> e @ c:1 d:3 e:4=t;\
    (a | b | (c <2> d)) <-> e @ c:1 d:3 e:5=f;(a | (b | c) <-> d) <-> e @ c:1 d:2 e:3=t;\
    a <-> a <-> a @ a:1,2,3=t;a <-> a <-> a @ a:1,2,4,5=f;a:* <-> ab:* @ a:1 abc:2=t;ab:* <-> a:* @ ab:1 a:2=t;\
    ab:* <-> ab:* @ abc:1 abd:2=t;a & b <-> c @ b:1 c:2=f;!(a & b <-> c) | d @ a:1 b:1 c:2 d:4=t;\
    a | b & (c | !d) @ b:1 d:2=f;(a | b) & !(c & d) @ b:1 d:2=t;abc & a:* & ab:* & b @ a:1 ab:2 abc:3 b:4=t;\
    abc & a:* & ab:* & b @ a:1 ab:2 b:4=f;ab:* & !abd:* & abc @ abb abc abe=t;a:* & a & a:* & !aa & !b:* @ a=t;\
    b | a | c @ aa ab bb=f;é:* & a:* & !é @ aé éa=t;abc:* <-> ab <-> a:* @ a:3 ab:2 abcd:1=t;\
    abc:* <-> ab <-> a:* @ a:4 ab:2 abcd:1=f";

/// Queries, values for their operands, and the answer.
const JUDGEMENTS: &str = "\
    @=False;a@True=True;a:B@True=Maybe;a:B@False=False;a:*@True=True;!a@False=True;!a@Maybe=Maybe;!a:B@True=Maybe;\
    a & b@True False=False;a | b@True False=True;a | !a@Maybe Maybe=Maybe;a <-> b@True True=Maybe;\
    a <-> b@True False=False;!a <-> b@True True=Maybe;!a <-> b@False True=Maybe;(a | b) <-> c@False Maybe True=Maybe";

/// Vectors, and their keys.
const VECTOR_KEYS: &str =
    "cat:1 a:3 cat:2=[[0, 97], [0, 99, 97, 116]];é b=[[0, 98], [0, 195, 169]];=[[1]]";

/// Queries, their keys, each with whether it is a prefix, and whether the whole index is read.
const QUERY_KEYS: &str = concat!(
    "cat & a:*B=[([0, 99, 97, 116], false), ([0, 97], true)] false;!a=[([0, 97], false)] true;=[] false;",
    "!a <-> b=[([0, 97], false), ([0, 98], false)] false;!a <-> !b=[([0, 97], false), ([0, 98], false)] true",
);

/// Queries, and which of the 24 vectors below satisfy each, in their order, as a slow program found that tried each
/// place of a wide range.
const VERDICTS: &str = concat!(
    "=ffffffffffffffffffffffff;a=tfftttttttttfttttttttttt;!a=fttffffffffftfffffffffff;",
    "a & b=fffttttttfttfftttttttttt;a | !b=tftttttttttttttttttttttt;a <-> b=ffftftfftfffffffttfttftt;",
    "a <0> b=fffffffftfftfffffffttftf;a <2> b=fffffftttftfffffffftffff;!a <-> b=ftfftfttffttffftfffftttf;",
    "a <-> !b=tffftfttttttfffffttftttt;!a <-> !b=tttttttttttttffttttttttt;!(a <-> b)=tttftfttftttttttfftfftff;",
    "(a | b) <-> c=ffffftfftftffffffffftftf;a <-> (b | !c)=tfftttttttttfffftttttttt;",
    "(a & b) <-> c=fffffffftffffffffffffftf;a <-> (b <-> c)=ffffftfftffffffffffffftf;",
    "(a <2> b) <3> c=fffffftfffffffffffffffff;a <2> (b <3> c)=fffffftfffffffffffffffff;",
    "((a <2> b) | c) <-> a=ffffffffffffffffffffffff;((a <2> b) & !c) <-> a=ffffffffffffffffffffffff;",
    "!(a <2> b) <-> c=fftffttfftttfffffffftttf;a:* <-> b=ffftftfttfffffffttfttftt;",
    "(a:* & b) <2> !c=fffffffftfftfffffffttfff;(a <-> b) & !(b <-> c) | a=tfftttttttttfttttttttttt;",
    "a:A=ffffffffffffffffttftffff;a:ABCD=tfftttttttttfffftttttttt;a:*B & !b:D=ffffffffffffffffftffffff;",
    "a:A <-> b=fffffffffffffffftfftffff;!a:A <-> b:D=ftfttttttfttffftfffttttt;a:*B <2> b=ffffffffffffffffffffffff;",
    "(a:A | b) <-> !c=ftfttftttfttffftttftttft;!(a:* <-> b:D)=tttftftfftttttttfttfftff;",
    "a <63> b=fffffffffffffffffffftttf;!a <64> b=ftfttttttfttffftttftttff;a <65> !b=tfftttttttttfffftttttftt;",
    "(a <63> b) <65> !c=fffffffffffffffffffftfff;!(a <64> !b) <64> c=fftffttfttttfffffffftttf;",
    "(a | b <64> c) <-> !a=tfftttttttttfffftttttttt;!a <2> (b | !c) <62> a:*=tfftttttttttfffftttttttt;",
    "a:* <-> ab:* | ab:* <-> a:*=ffffffftfffffffffttfffft;(a & !b | c) <-> (b | a & c)=ffftftfftfffffffttftffft;",
    "!(!a <-> !(b | !c))=ttfttffttfftttttttttffft",
);

/// The vectors, with `|` between two.
const VECTORS: &str = concat!(
    "a:1|b:2|c:3|a:1 b:2|a:2 b:1|a:1 b:2 c:3|a:1 b:3 c:6|a:1 ab:2 b:3|a:1 a:2 a:3 b:2 b:3 c:4|c:1 a:2|",
    "b:1 c:2 a:3 b:5|a:5 b:5 c:5||a|a ab b c|a b:2|a:1A b:2|a:1B,3A ab:4B b:2C|a:2 ab:1A b c|",
    "'a':1A,2B 'b':2A,3 'c'|a:1,64 b:64,65,127 c:128,129|a:63 b:126,127,128 c:191,192|a:1,2,65 b:65,66 c:66,67,130|",
    "ab:1,64 a:2,65 b:66",
);

/// Whether a vector satisfies a query, in memory and in its encoding: `t` or `f`, and `?` where these differ.
fn verdict(
    alloc: Global,
    query: &TsQuery,
    vector: &TsVector,
    encoded: &VectorBytes,
) -> Result<&'static str, AllocError> {
    let mut work = MatchWork::new(alloc, query)?;
    let holds = matches(query, &mut work, vector);
    if matches_encoded(query, &mut work, encoded) != holds {
        return Ok("?");
    }
    Ok(if holds { "t" } else { "f" })
}

/// Puts whether the vector of a text satisfies a query.
fn push_verdict(alloc: Global, out: &mut String, query: &TsQuery, text: &str) -> Result<(), Fail> {
    let vector = TsVector::parse(alloc, text)?;
    let mut bytes = Vec::new(alloc);
    vector.encode(&mut bytes)?;
    let encoded = VectorBytes::new(bytes.as_slice())?;
    out.push_str(verdict(alloc, query, &vector, &encoded)?)?;
    Ok(())
}

/// Whether each of the vectors after the `@` satisfies the query; of the table's, where none are given.
pub fn verdicts(alloc: Global, out: &mut String, asked: &str) -> Result<(), Fail> {
    let (query, texts) = asked.split_once('@').unwrap_or((asked, VECTORS));
    let query = TsQuery::parse(alloc, query)?;
    for text in texts.split('|') {
        push_verdict(alloc, out, &query, text)?;
    }
    Ok(())
}

/// The values that a text names.
fn values_of(alloc: Global, text: &str) -> Result<Vec<Tri>, AllocError> {
    let mut values = Vec::new(alloc);
    for word in text.split_whitespace() {
        values.push(match word {
            "True" => Tri::True,
            "Maybe" => Tri::Maybe,
            _ => Tri::False,
        })?;
    }
    Ok(values)
}

/// Puts the answer for a query by these values, alone and by the class.
fn push_answer(
    alloc: Global,
    out: &mut String,
    query: &TsQuery,
    values: &[Tri],
) -> Result<(), AllocError> {
    if values.len() != query.operands().len() {
        return out.push_str("other operands");
    }
    let mut work = MatchWork::new(alloc, query)?;
    let answer = judge(query, &mut work, values);
    let same = answer == text_class().judge(query, &mut work, values);
    let again = if same { "" } else { ", another by the class" };
    write!(out, "{answer:?}{again}")
}

/// The answer for a query by values.
pub fn judgement(alloc: Global, out: &mut String, asked: &str) -> Result<(), Fail> {
    let (query, values) = cut(asked);
    let query = TsQuery::parse(alloc, query)?;
    let values = values_of(alloc, values)?;
    push_answer(alloc, out, &query, &values)?;
    Ok(())
}

/// The keys of a vector.
pub fn keys_of_vector(alloc: Global, out: &mut String, asked: &str) -> Result<(), Fail> {
    let keys = vector_keys(alloc, &TsVector::parse(alloc, asked)?)?;
    write!(out, "{keys:?}")?;
    Ok(())
}

/// The keys of a query, and whether the whole index is read.
pub fn keys_of_query(alloc: Global, out: &mut String, asked: &str) -> Result<(), Fail> {
    let asked = query_keys(alloc, &TsQuery::parse(alloc, asked)?)?;
    let keys = &asked.keys;
    let all = asked.all;
    write!(out, "{keys:?} {all}")?;
    Ok(())
}

/// Each row gives what it says.
#[test]
fn meanings(rt: HostRuntime) -> Result<(), Fail> {
    let alloc = rt.alloc();
    try_rows(&rt, alloc, Kind::Verdicts, MEANINGS, 104)?;
    try_rows(&rt, alloc, Kind::Verdicts, VERDICTS, 42)?;
    try_rows(&rt, alloc, Kind::Judgement, JUDGEMENTS, 16)?;
    try_rows(&rt, alloc, Kind::VectorKeys, VECTOR_KEYS, 3)?;
    try_rows(&rt, alloc, Kind::QueryKeys, QUERY_KEYS, 5)
}
