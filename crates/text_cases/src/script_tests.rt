// What a script says.
use crate::kinds::{Kind, try_rows};
use crate::rows::{push_number, push_word};
use shell_script::{
    Lines, Mapping, Statement, Step, Types, read_line, read_mapping, read_opening_line, steps,
};
use std::alloc::{AllocError, Global};
use std::test::Fail;

/// Scripts, and their steps by the numbers of their lines: a line by itself; a definition with the lines of its body in
/// brackets; with `!`, a line that is no statement where it is.
const STEPS: &str = "\
    =;\
    parse 'a'\n\n# x\nask 'b'=1 4;\
    dictionary d simple\r\na\n\n#\n end\nend\r\nparse 'a'\n=1( 2 3 4 5 ) 7;\
    \x20configuration\nend\nend\n=1( ) 3;\
    parse 'a'\ndictionary\nask 'b'\nend =1 !2;\
    configuration c\nend\r=!1;\
    parallel x\ndictionary d simple\n# end\n\n@1 a\nend\nend\nask 'a'=!1 !2 !5 !6 7 8;\
    end\nparallels\nconfiguration\n=1 2 !3";

/// First lines, and what they say. In a line `ÿ` stands for the byte 255.
const OPENING_LINES: &str = "\
    dictionary d simple=Some(Dictionary { name: ~d~, kind: Simple { accept: true } });\
    \tdictionary  _9 simple\tpass =Some(Dictionary { name: ~_9~, kind: Simple { accept: false } });\
    configuration Simple_1=Some(Configuration { name: ~Simple_1~ });\
    configuration dictionary=Some(Configuration { name: ~dictionary~ });\
    configuration nnnnnnnnnnnnnnnnnnnnnnnnnnnnnnnnnnnnnnnnnnnnnnnnnnnnnnnnnnnnnnnn=Some(Configuration { name: \
    ~nnnnnnnnnnnnnnnnnnnnnnnnnnnnnnnnnnnnnnnnnnnnnnnnnnnnnnnnnnnnnnnn~ });\
    configuration nnnnnnnnnnnnnnnnnnnnnnnnnnnnnnnnnnnnnnnnnnnnnnnnnnnnnnnnnnnnnnnnn=None;\
    dictionary p porter=Some(Dictionary { name: ~p~, kind: Porter });\
    dictionary s synonym =Some(Dictionary { name: ~s~, kind: Synonym { case_sensitive: false } });\
    dictionary s synonym casesensitive=Some(Dictionary { name: ~s~, kind: Synonym { case_sensitive: true } });\
    dictionary t thesaurus simple=Some(Dictionary { name: ~t~, kind: Thesaurus { sub: ~simple~ } });\
    dictionary p porter pass=None;\
    dictionary s synonym pass=None;\
    dictionary s synonym casesensitive x=None;\
    dictionary t thesaurus=None;\
    dictionary t thesaurus 9=None;\
    dictionary t thesaurus vector=None;\
    dictionary t thesaurus simple x=None;\
    =None;\
    dictionary=None;\
    dictionary d=None;\
    dictionary d fast=None;\
    dictionary d Simple=None;\
    dictionary d simple pass pass=None;\
    dictionary d simple fast=None;\
    dictionary 9d simple=None;\
    dictionary vector simple=None;\
    dictionary d-e simple=None;\
    dictionary dÿ simple=None;\
    configuration=None;\
    configuration strip=None;\
    configuration c d=None;\
    configuration 'c'=None";

/// Lines of a configuration, with the numbers of their types and the names after them.
const MAPPINGS: &str = "\
    asciiword simple=1 simple;\
    \x20asciiword,word,asciiword\td  simple d =1 2 1 d simple d;\
    numword,sfloat,version,hword_numpart,hword_part,hword_asciipart,blank,numhword,asciihword,hword,float,int,uint \
    d=3 7 8 9 10 11 12 15 16 17 20 21 22 d;\
    =none;\
    \x20\t=none;\
    asciiword=none;\
    asciiword =none;\
    asciiword, d=none;\
    ,asciiword d=none;\
    asciiword,,word d=none;\
    asciiword ,word d=none;\
    asciiword vector=none;\
    asciiword d 9=none;\
    Asciiword d=none;\
    asciiword d ÿ=none";

/// Lines by themselves, and what they say.
const ASKING: &str = "\
    @1 insert strip vector 'a' || vector 'b:1'=ScriptLine { session: 1, statement: Insert(Expr { first: Part { \
    stripped: true, source: Text(~a~) }, others: [Part { stripped: false, source: Text(~b:1~) }] }) };\
    show vector ''=ScriptLine { session: 0, statement: Show(Expr { first: Part { stripped: false, source: Text(~~) \
    }, others: [] }) };\
    \t show\tstrip  vector 'a'\t||\tstrip vector 'b' || vector 'c' =ScriptLine { session: 0, statement: Show(Expr { \
    first: Part { stripped: true, source: Text(~a~) }, others: [Part { stripped: true, source: Text(~b~) }, Part { \
    stripped: false, source: Text(~c~) }] }) };\
    ask 'a & b'=ScriptLine { session: 0, statement: Ask(Text(~a & b~)) };\
    parse\t'a b' =ScriptLine { session: 0, statement: Parse(~a b~) };\
    ask ''''=ScriptLine { session: 0, statement: Ask(Text(~'~)) };\
    \x20\t@8 search 'it''s' \t=ScriptLine { session: 8, statement: Search(Text(~it's~)) };\
    @2 search 'end || @1'=ScriptLine { session: 2, statement: Search(Text(~end || @1~)) };\
    @3 update 2/0#1 vector 'a'=ScriptLine { session: 3, statement: Update(Doc { text: ~2/0#1~, name: Name { page: 2, \
    slot: 0, serial: 1 } }, Expr { first: Part { stripped: false, source: Text(~a~) }, others: [] }) };\
    @1 delete\t4294967295/00#18446744073709551615 =ScriptLine { session: 1, statement: Delete(Doc { text: \
    ~4294967295/00#18446744073709551615~, name: Name { page: 4294967295, slot: 0, serial: 18446744073709551615 } }) };\
    \x20commits\t=ScriptLine { session: 0, statement: Commits };\
    @3\tcleanup =ScriptLine { session: 3, statement: Cleanup };\
    @8 vacuum\t=ScriptLine { session: 8, statement: Vacuum };\
    @3\tinsert\tvector\t'é'\t=ScriptLine { session: 3, statement: Insert(Expr { first: Part { stripped: false, \
    source: Text(~é~) }, others: [] }) };\
    show c 'a b' || strip _d B 'c'=ScriptLine { session: 0, statement: Show(Expr { first: Part { stripped: false, \
    source: Made { config: ~c~, weight: None, text: ~a b~ } }, others: [Part { stripped: true, source: Made { \
    config: ~_d~, weight: Some(B), text: ~c~ } }] }) };\
    @4 insert strip A A ''''=ScriptLine { session: 4, statement: Insert(Expr { first: Part { stripped: true, \
    source: Made { config: ~A~, weight: Some(A), text: ~'~ } }, others: [] }) };\
    ask to c 'x & y'=ScriptLine { session: 0, statement: Ask(Made { maker: To, config: ~c~, text: ~x & y~ }) };\
    ask plain to ''=ScriptLine { session: 0, statement: Ask(Made { maker: Plain, config: ~to~, text: ~~ }) };\
    @1 search phrase D 'x'=ScriptLine { session: 1, statement: Search(Made { maker: Phrase, config: ~D~, text: ~x~ \
    }) };\
    @1 search\tweb\tweb 'x' =ScriptLine { session: 1, statement: Search(Made { maker: Web, config: ~web~, text: ~x~ \
    }) }";

/// Lines that say nothing.
const NO_STATEMENTS: &str = "\
    ; \t;@1;show;show 'a';show vector;show vector a;show vector'a';show vector 'a;show vector 'a'';show vector 'a'b;\
    show vector 'a''b;show vector 'a' ||;show vector 'a'|| vector 'b';show vector 'a' ||vector 'b';\
    show vector 'a' || 'b';show vector 'a' || || vector 'b';show || vector 'a';show vector 'a' vector 'b';\
    show vector 'a' | vector 'b';show strip strip vector 'a';show vector strip 'a';show strip 'a';SHOW vector 'a';\
    @1 show vector 'a';@1 statement 'a';insert vector 'a';search 'a';@0 search 'a';@9 search 'a';@12 search 'a';\
    @1 @2 search 'a';@1 search a;@1 search strip vector 'a';ask 'a' 'b';@1 parse 'a';parse vector 'a';ask 'ÿ';\
    dictionary d simple;configuration c;parallel;show c a 'x';show c E 'x';show c A B 'x';show 9 'x';show c A;\
    show c 'x' || A strip 'x';ask c 'x';ask to 'x';ask to c;ask to vector 'x';ask To c 'x';ask to c A 'x';\
    ask web c 'x' 'x';commits now;@1 commits;delete 2/0#1;@1 delete 2/65536#1;@1 delete +2/0#1;@1 delete 2/0;\
    @1 delete 2/0#;@1 delete 2/0#1 x;@1 update 2/0#1;@1 update vector 'a';cleanup;@1 cleanup 'a';@1 cleanup x;\
    @1 Cleanup;vacuum;@1 vacuum x;@1 vacuum 2/0#1;@1 vacuums;@1 Vacuum";

/// The bytes of a line.
fn bytes_of(alloc: Global, line: &str) -> Result<Vec<u8>, AllocError> {
    let mut bytes = Vec::new(alloc);
    for part in line.split('ÿ') {
        bytes.extend_from_slice(part.as_bytes())?;
        bytes.push(255)?;
    }
    bytes.pop();
    Ok(bytes)
}

/// Puts the numbers of a body's lines after others.
fn push_body(text: &mut String, body: Lines<'_>) -> Result<(), AllocError> {
    text.push_str("(")?;
    for line in body {
        push_number(text, line.number as usize)?;
    }
    push_word(text, ")")
}

/// Puts a step after others.
fn push_step(text: &mut String, step: Step<'_>) -> Result<(), AllocError> {
    match step {
        Step::Single(line) => push_number(text, line.number as usize),
        Step::Stray(line) => {
            push_word(text, "!")?;
            let number = line.number;
            write!(text, "{number}")
        }
        Step::Definition(line, body) => {
            push_number(text, line.number as usize)?;
            push_body(text, body)
        }
    }
}

/// The steps of a script.
pub fn script(out: &mut String, asked: &str) -> Result<(), Fail> {
    for step in steps(asked.as_bytes()) {
        push_step(out, step)?;
    }
    Ok(())
}

/// What a first line says.
pub fn opening_line(alloc: Global, out: &mut String, line: &str) -> Result<(), Fail> {
    let line = bytes_of(alloc, line)?;
    let head = read_opening_line(line.as_slice());
    write!(out, "{head:?}")?;
    Ok(())
}

/// Puts the numbers of types after a text.
fn push_types(text: &mut String, types: Types<'_>) -> Result<(), AllocError> {
    for kind in types {
        push_number(text, usize::from(kind.number()))?;
    }
    Ok(())
}

/// What a line of a configuration says.
pub fn mapping(alloc: Global, out: &mut String, line: &str) -> Result<(), Fail> {
    let line = bytes_of(alloc, line)?;
    let Some(Mapping { types, names }) = read_mapping(line.as_slice()) else {
        out.push_str("none")?;
        return Ok(());
    };
    push_types(out, types)?;
    for name in names {
        push_word(out, name)?;
    }
    Ok(())
}

/// What a line by itself says; nothing is put for a line that says nothing.
pub fn statement(alloc: Global, out: &mut String, line: &str) -> Result<(), Fail> {
    let line = bytes_of(alloc, line)?;
    let said = read_line(alloc, line.as_slice())?;
    if said.session == 0 && matches!(said.statement, Statement::Invalid) {
        return Ok(());
    }
    write!(out, "{said:?}")?;
    Ok(())
}

/// Each row says what it says.
#[test]
fn scripts(rt: HostRuntime) -> Result<(), Fail> {
    let alloc = rt.alloc();
    try_rows(&rt, alloc, Kind::Script, STEPS, 8)?;
    try_rows(&rt, alloc, Kind::OpeningLine, OPENING_LINES, 32)?;
    try_rows(&rt, alloc, Kind::Mapping, MAPPINGS, 15)?;
    try_rows(&rt, alloc, Kind::Statement, ASKING, 20)?;
    try_rows(&rt, alloc, Kind::Statement, NO_STATEMENTS, 73)
}
