// Configurations, and the vectors and queries that are made by them.
ghost use Rattle.ts_config.specs.Known.{IsWithin};

use crate::kinds::{Kind, try_rows};
use crate::rows::push_word;
use crate::{query_tests, vector_tests};
use porter_stem::Porter;
use std::alloc::{AllocError, Global};
use std::test::Fail;
use ts_config::{AnyDictionary, Config, ConfigError, Configs, Placed};
use ts_make::{phraseto_tsquery, plainto_tsquery, to_tsquery, to_tsvector};
use ts_parser::TokenType;
use ts_synonym::Synonym;
use ts_thesaurus::Thesaurus;
use ts_websearch::websearch_to_tsquery;
use ts_words::{Simple, StopList};

/// Definitions and texts in turn, and what comes of each. The step `D name accept words` defines a dictionary
/// `simple` with these stop words, `O name words` one of stems, `S name lines` a case sensitive one of synonyms, and
/// `T name sub lines` a thesaurus, where `|` is between two lines; `C name` a configuration; `M name type
/// dictionaries` maps a type of it, and `P name type dictionary` puts one in that was built apart; `? name text`
/// places the lexemes of a text, and shows each with its position, and with `*` where it has the mark; `@ name` shows
/// the place of a dictionary, and whether it is there; `L` the list that a type is given, and that of another.
const ROWS: &str = concat!(
    // Dictionaries are found by name and keep their places, and a type's list is replaced.
    "@ simple=Some(0) true;@ none=None false;L=[3, 1] [];",
    // The configuration that is there from the start.
    "? simple A fat Cat sat-on 1.5=a:1 fat:2 cat:3 sat-on:4 sat:5 on:6 1.5:7;? simple   , ...=;",
    "? simple Été THE=Été:1 the:2;? simple a «b^2046» c=a:1 «b^2046»:2 c:3;? simple a «b^2047» c=a:1 c:2;",
    // A stop word takes a position, and a dropped token none; the last mapping of a type counts.
    "D stops 1 the of=ok;D pass 0 the=ok;C c=ok;M c asciiword pass=ok;M c asciiword stops=ok;M c numword simple=ok;",
    "? c The fat CAT 12 of 7th=fat:2 cat:3 7th:5;? c the of the=;",
    // The first dictionary that knows the word decides.
    "C two=ok;M two asciiword pass simple=ok;? two the of cat=of:2 cat:3;",
    "M two asciiword simple pass=ok;? two the of cat=the:1 of:2 cat:3;",
    // A name is taken once, but dictionaries and configurations have names apart; a refused step changes nothing.
    "P pass asciiword pass=ok;? pass of the cat=;D two 1 fat=ok;? two fat=fat:1;",
    "D simple 0 the=duplicate name;C c=duplicate name;P simple word stops=duplicate name;",
    "M c asciiword simple none=unknown dictionary;? c the a=a:2;? simple the a=the:1 a:2;? none a=none;",
    // Stems and synonyms.
    "O porter the=ok;S syn Cat Dog* rest|Cat Bird|alone|x x**=ok;D sub 1 the=ok;",
    "C s=ok;M s asciiword syn sub=ok;? s Cat cat x Alone=Dog*:1 cat:2 x**:3 alone:4;",
    "C p=ok;M p asciiword syn porter=ok;? p the Cat ponies=Dog*:2 poni:3;",
    // A thesaurus replaces the longest phrase, the last of equal ones; a token without dictionaries is left out, and
    // one whose list hasn't the thesaurus ends what it sees.
    "T th sub new york : *NYC|new york city : big apple|? cat : *stopcat|x y : p q|x y : r=ok;",
    "C t=ok;M t asciiword th sub=ok;M t uint sub=ok;",
    "? t new york city new york=big:1 apple:1 NYC:2;? t new 7 york=new:1 7:2 york:3;",
    "? t NEW - York x y z=NYC:1 r:2 z:3;? t the cat the dog=stopcat:1 dog:3;",
    "? t new 7.5 «n^2047» york new=NYC:1 new:2;? t new=new:1;? t york new york city=york:1 big:2 apple:2;",
    // It is asked where the dictionaries before it don't know the first token.
    "M t asciiword sub th=ok;? t new york=new:1 york:2;M t asciiword syn th sub=ok;? t x y new york=x**:1 y:2 NYC:3;",
    "M t asciiword th th=ok;? t a new york=NYC:1;M t numword th=ok;? t new 7th york=;",
    // A subdictionary has to be there, and is no thesaurus.
    "T th none a : b=unknown dictionary;T more th ? : *b=unknown dictionary;T th sub a : b=duplicate name;? t x y=r:1",
);

/// Definitions, then calls with texts by the configuration `c`, and what comes of each.
const MAKERS: &str = concat!(
    // The configuration `c`, whose dictionary has two stop words.
    "D stops 1 the a=ok;C c=ok;M c asciiword stops=ok;M c word stops=ok;M c uint stops=ok;",
    "M c asciihword stops=ok;M c hword_asciipart stops=ok;",
    // Stop operands are removed.
    "to !(the | cat) & dog=!'cat' & 'dog';to cat <-> the <-> rat='cat' <2> 'rat';",
    "to cat <-> (the | a) <2> dog='cat' <3> 'dog';to cat <-> (the <3> a) <2> dog='cat' <6> 'dog';",
    "to cat <16384> the <-> dog='cat' <16384> 'dog';to cat <-> (the <-> dog)='cat' <2> 'dog';",
    "to cat & !the='cat';to the | a=;to =;to !!a=;to the <-> cat='cat';",
    // Operands with several lexemes, each with the operand's weights and mark.
    "to 'fat the rat':b* <-> x='fat':*B <2> 'rat':*B <-> 'x';",
    "to x <-> 'fat rat'='x' <-> ( 'fat' <-> 'rat' );to cat-dog='cat-dog' <-> 'cat' <-> 'dog';",
    "to a &=syntax error at 3;to cat <20000> the=distance too large at 4;",
    "to «b^2047»=lexeme too long at 0;to «b^2046»='«b^2046»';",
    // Plain texts.
    "plain the cat a dog='cat' & 'dog';phrase the cat the dog='cat' <2> 'dog';plain the=;phrase ,=;",
    "vector the cat the dog cat='cat':2,5 'dog':4;vector the=;",
    // Nodes are counted before the removal.
    "to 'x x'«|x^16381»|the='x' <-> 'x'« | 'x'^16381»;to 'x x'«|x^16382»|the=too many nodes;",
    "to x«|x^16382»|the='x'« | 'x'^16382»;plain «x ^16384»='x'« & 'x'^16383»;",
    "plain «x ^16385»=too many nodes;phrase «x ^16384»='x'« <-> 'x'^16383»;phrase «x ^16385»=too many nodes;",
    // Web texts: `~` stands for a quotation mark.
    "web ~fat rat~ or cat -dog='fat' <-> 'rat' | 'cat' & !'dog';web cat or or dog='cat' | 'or' & 'dog';",
    "web cat OR -or='cat' | !'or';web -cat-dog --x=!( 'cat-dog' <-> 'cat' <-> 'dog' ) & !'x';",
    "web ~~ cat - -~the='cat';web or='or';web cat or='cat' & 'or';web =;web -~fat rat=!( 'fat' <-> 'rat' );",
    "web cat~dog~-x='cat' & 'dog' & !'x';web cat Or - or dog='cat' | 'dog';web - -the ~,~=;",
    "web «x ^16384»='x'« & 'x'^16383»;web «x ^16384»-=too many nodes;web «- ^16384»=;web «- ^16385»=too many nodes;",
    "web «~^1000000»=too many nodes;web «or ^100000»=too many nodes",
);

/// Cuts the first word off.
fn cut(words: &str) -> (&str, &str) {
    words.split_once(' ').unwrap_or((words, ""))
}

/// The list of these stop words.
fn stops(alloc: Global, words: &str) -> Result<StopList, AllocError> {
    let mut list = StopList::new(alloc);
    for word in words.split(' ') {
        if list.add_line(alloc, word).is_err() {
            return Err(AllocError);
        }
    }
    Ok(list)
}

/// The case sensitive dictionary of these synonyms.
fn synonym(alloc: Global, lines: &str) -> Result<AnyDictionary, AllocError> {
    let mut list = Synonym::new(alloc, true);
    for line in lines.split('|') {
        if list.add_line(alloc, line).is_err() {
            return Err(AllocError);
        }
    }
    Ok(AnyDictionary::Synonym(list))
}

/// The thesaurus of these lines, by the subdictionary of this name.
fn thesaurus(
    alloc: Global,
    configs: &Configs,
    sub: &str,
    lines: &str,
) -> Result<AnyDictionary, ConfigError> {
    let mut rules = Thesaurus::new(alloc);
    if let Some(dictionary) = configs.subdictionary(sub) {
        for line in lines.split('|') {
            if rules.add_line(alloc, line, dictionary).is_err() {
                return Err(ConfigError::OutOfMemory);
            }
        }
    }
    let name = String::from_str(alloc, sub)?;
    Ok(AnyDictionary::Thesaurus(rules, name))
}

/// Names as texts of their own.
fn texts(alloc: Global, names: &str) -> Result<Vec<String>, AllocError> {
    let mut out = Vec::new(alloc);
    for name in names.split(' ') {
        out.push(String::from_str(alloc, name)?)?;
    }
    Ok(out)
}

/// The type of this name.
fn type_named(name: &str) -> TokenType {
    TokenType::from_name(name).unwrap_or(TokenType::Blank)
}

/// Defines a dictionary of this kind.
fn define(
    alloc: Global,
    configs: &mut Configs,
    kind: &str,
    name: &str,
    rest: &str,
) -> Result<(), ConfigError> {
    let (front, after) = cut(rest);
    let dictionary = match kind {
        "O" => AnyDictionary::Porter(Porter::new(stops(alloc, rest)?)),
        "S" => synonym(alloc, rest)?,
        "T" => thesaurus(alloc, configs, front, after)?,
        _ => AnyDictionary::Simple(Simple::new(stops(alloc, after)?, front == "1")),
    };
    configs.add_dictionary(alloc, name, dictionary)
}

/// Gives a type the dictionaries of these names, where the configuration is there.
fn map(alloc: Global, configs: &mut Configs, name: &str, rest: &str) -> Result<(), ConfigError> {
    let (kind, dictionaries) = cut(rest);
    let names = texts(alloc, dictionaries)?;
    if configs.config(name).is_none() {
        return Ok(());
    }
    configs.add_mapping(alloc, name, type_named(kind), &names)
}

/// Adds a configuration that is built apart: it has one dictionary for a type.
fn put(alloc: Global, configs: &mut Configs, name: &str, rest: &str) -> Result<(), ConfigError> {
    let (kind, dictionary) = cut(rest);
    let mut config = Config::empty(alloc)?;
    if let Some(place) = configs.place(dictionary) {
        config.map(alloc, &[type_named(kind)], &[place])?;
    }
    configs.put_configuration(alloc, name, config)
}

/// One definition.
fn step(alloc: Global, configs: &mut Configs, row: &str) -> Result<(), ConfigError> {
    let (kind, rest) = cut(row);
    let (name, rest) = cut(rest);
    match kind {
        "C" => configs.add_configuration(alloc, name),
        "M" => map(alloc, configs, name, rest),
        "P" => put(alloc, configs, name, rest),
        _ => define(alloc, configs, kind, name, rest),
    }
}

/// Puts a placed lexeme after others.
fn push_placed(out: &mut String, placed: &Placed) -> Result<(), AllocError> {
    push_word(out, placed.lexeme.as_str())?;
    let mark = if placed.prefix { "*" } else { "" };
    let position = placed.position;
    write!(out, "{mark}:{position}")
}

/// The placed lexemes of a text, shown.
fn shown(alloc: Global, out: &mut String, configs: &Configs, row: &str) -> Result<(), Fail> {
    let (name, text) = cut(row);
    let Some(config) = configs.config(name) else {
        out.push_str("none")?;
        return Ok(());
    };
    for placed in &configs.lexize_all(alloc, config, text)? {
        push_placed(out, placed)?;
    }
    Ok(())
}

/// What is made of a text.
fn made(
    alloc: Global,
    out: &mut String,
    configs: &Configs,
    config: &Config,
    call: &str,
    text: &str,
) -> Result<(), Fail>
    requires { IsWithin configs.now config.now }
{
    let query = match call {
        "vector" => {
            let vector = to_tsvector(alloc, configs, config, text);
            return vector_tests::printed(alloc, out, vector);
        }
        "to" => to_tsquery(alloc, configs, config, text),
        "plain" => plainto_tsquery(alloc, configs, config, text),
        "phrase" => phraseto_tsquery(alloc, configs, config, text),
        _ => websearch_to_tsquery(alloc, configs, config, text),
    };
    query_tests::printed(alloc, out, query)
}

/// Puts the place of a dictionary, and whether it is there.
fn push_place(out: &mut String, configs: &Configs, name: &str) -> Result<(), AllocError> {
    let place = configs.place(name);
    let is_there = configs.dictionary(name).is_some();
    write!(out, "{place:?} {is_there}")
}

/// Puts the list that a type is given, and that of another.
fn push_lists(alloc: Global, out: &mut String) -> Result<(), AllocError> {
    let mut config = Config::empty(alloc)?;
    config.set(TokenType::Uint, vec![in alloc; 3, 1]?);
    let given = config.list(TokenType::Uint);
    let other = config.list(TokenType::Blank);
    write!(out, "{given:?} {other:?}")
}

/// What comes of a step.
pub fn outcome(
    alloc: Global,
    out: &mut String,
    configs: &mut Configs,
    row: &str,
) -> Result<(), Fail> {
    let (kind, rest) = cut(row);
    match kind {
        "?" => return shown(alloc, out, configs, rest),
        "@" => push_place(out, configs, rest)?,
        "L" => push_lists(alloc, out)?,
        "to" | "plain" | "phrase" | "web" | "vector" => match configs.config("c") {
            Some(config) => return made(alloc, out, configs, config, kind, rest),
            None => out.push_str("none")?,
        },
        _ => match step(alloc, configs, row) {
            Ok(()) => out.push_str("ok")?,
            Err(error) => write!(out, "{error}")?,
        },
    }
    Ok(())
}

/// Each step gives its outcome.
#[test]
fn steps(rt: HostRuntime) -> Result<(), Fail> {
    try_rows(&rt, rt.alloc(), Kind::Step, ROWS, 64)?;
    try_rows(&rt, rt.alloc(), Kind::Step, MAKERS, 56)
}
