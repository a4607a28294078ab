// Stems, stop words and synonyms.
use crate::kinds::{Kind, try_rows};
use crate::rows::{cut, push_word};
use crate::thesaurus_tests::push_told;
use porter_stem::{Porter, stem};
use std::alloc::{AllocError, Global};
use std::test::Fail;
use ts_synonym::Synonym;
use ts_words::{Simple, StopList};

/// Words, each with its stem, over all steps.
const STEMS: &str = "\
    a=a;ab=ab;abbeys=abbei;abilities=abil;able=abl;accesses=access;accommodation=accommod;activate=activ;\
    activities=activ;adjustable=adjust;adjustment=adjust;adoption=adopt;aggression=aggress;agreed=agre;\
    agreement=agreement;airliner=airlin;allowance=allow;analogical=analog;analogousli=analog;angulariti=angular;\
    angularity=angular;anxieties=anxieti;apologize=apolog;apples=appl;argued=argu;arguing=argu;argument=argument;\
    arrival=arriv;arrive=arriv;as=a;assess=assess;associate=associ;ational=ation;ay=ai;babies=babi;basely=base;\
    bases=base;be=be;beauties=beauti;bed=bed;beds=bed;been=been;being=be;believe=believ;berry=berri;best=best;\
    bled=bled;bless=bless;blessed=bless;bowdlerize=bowdler;boxes=box;boy=boi;boys=boi;bribe=bribe;bring=bring;\
    bubbled=bubbl;bus=bu;buses=buse;busy=busi;by=by;callousness=callous;caress=caress;caresses=caress;cat=cat;\
    cats=cat;cease=ceas;ceased=ceas;century=centuri;cheerfulness=cheer;city=citi;classes=class;combination=combin;\
    communism=commun;complexity=complex;conditional=condit;conflated=conflat;conformabli=conform;conformity=conform;\
    controll=control;controller=control;cooked=cook;copies=copi;cries=cri;cry=cry;crying=cry;daisies=daisi;\
    decisiveness=decis;defensible=defens;definitely=definit;dependent=depend;derivation=deriv;died=di;dies=di;\
    differentli=differ;digitizer=digit;doing=do;double=doubl;dressed=dress;dried=dri;dries=dri;driven=driven;\
    dying=dy;e=e;easily=easili;east=east;eating=eat;ed=ed;ee=ee;eed=eed;effective=effect;egg=egg;eggs=egg;\
    electrical=electr;electriciti=electr;electricity=electr;element=element;ended=end;energy=energi;engine=engin;\
    enjoy=enjoi;enjoyed=enjoi;enjoying=enjoi;equally=equal;eyes=ey;faced=face;facing=face;failing=fail;falling=fall;\
    fancies=fanci;feed=feed;feudalism=feudal;filing=file;fizzed=fizz;flies=fli;fly=fly;flying=fly;formaliti=formal;\
    formality=formal;formalize=formal;formation=format;formative=form;fulness=ful;gas=ga;generalization=gener;\
    glasses=glass;goodness=good;gyroscopic=gyroscop;happiness=happi;happy=happi;hating=hate;hesitanci=hesit;\
    hissing=hiss;homologou=homolog;homologous=homolog;hoped=hope;hopeful=hope;hopefulness=hope;hopeless=hopeless;\
    hopping=hop;i=i;ied=i;ies=i;inference=infer;ing=ing;inspection=inspect;ion=ion;irritant=irrit;is=i;ivy=ivi;\
    joyful=joy;joyously=joyous;knees=knee;laws=law;lay=lai;le=le;lens=len;libraries=librari;lied=li;living=live;\
    loving=love;making=make;matches=match;meetings=meet;ment=ment;mess=mess;mining=mine;missing=miss;mixing=mix;\
    motoring=motor;nationally=nation;ness=ness;news=new;o=o;operator=oper;opposition=opposit;outing=out;oxen=oxen;\
    paying=pai;plastered=plaster;plotted=plot;ponies=poni;pony=poni;pops=pop;possibly=possibli;predication=predic;\
    probate=probat;radicalli=radic;rate=rate;rational=ration;relational=relat;relations=relat;replacement=replac;\
    requirement=requir;revival=reviv;roll=roll;running=run;s=s;sandwiches=sandwich;say=sai;seeing=see;\
    sensibiliti=sensibl;sensitiviti=sensit;sing=sing;singing=sing;sized=size;skies=ski;sky=sky;sleepily=sleepili;\
    snowing=snow;something=someth;soothing=sooth;spied=spi;ss=ss;sses=ss;stressed=stress;string=string;\
    studies=studi;studying=studi;tanned=tan;tie=tie;tied=ti;ties=ti;toy=toi;toys=toi;triplicate=triplic;\
    troubled=troubl;troubling=troubl;tying=ty;u=u;union=union;unions=union;university=univers;valenci=valenc;\
    vietnamization=vietnam;vileli=vile;visible=visibl;was=wa;weed=weed;weeping=weep;wing=wing;wise=wise;y=y;ya=ya;\
    ye=ye;yearly=yearli;yell=yell;yelling=yell;yes=ye;yoyo=yoyo;zeal=zeal;zoology=zoologi";

/// Words that stay as they are.
const KEPT: &str = "=;s=s;Cats=Cats;can't=can't;cafés=cafés;b2ing=b2ing";

/// Words, and the answers of stems with the stop words `the` and `a`: lower case, then stop words, then the stem; a
/// word with other bytes stays.
const PORTER: &str = "tHE=stop;Cats=cat;S=s;naÏve=naÏve;Rats2=rats2;then=then";

/// A text and words, and what comes of it: for each word 1 where the text's stop list has it, or why the text is
/// refused.
const STOPS: &str = concat!(
    // The first word of a line, in lower case; the rest is ignored.
    "The rest\r\n  Fat\trat\n\n \t\nX@the rest fat rat x The=1 0 1 0 1 0;",
    "the@th thee the=0 0 1;ÉA@Éa éa ÉA=1 0 0;@ =0 0;a\n\na@a=1;",
    // A CR is dropped before an LF alone.
    "a\rb\r\nc\r@a a\rb c c\r=0 1 0 1;",
    // The limit.
    "«a^2046» «b^3000»\n \t«B^2046»@«a^2046» «b^2046» b=1 1 0;",
    "x\n\n«a^2047»\n«a^2047»@x=bad line 3;x\r\n \ny «a^3000»\r\n\t«A^2047» x@x=bad line 4",
);

/// Words, and the answers of `simple` with the stop words `the` and `of`, where it accepts and where it doesn't.
const ACCEPTED: &str = "the=stop;OF=stop;Fat=fat;thé=thé;th=th";

/// Lines that a stop list is given one by one, with `|` between two, and a word; which lines it refuses, and the answer
/// of `simple` where it doesn't accept: a refused line changes nothing.
const PASSED: &str = concat!(
    " The rest| \t|«a^2047» b|of@the=taken taken refused taken stop;",
    " The rest| \t|«a^2047» b|of@OF=taken taken refused taken stop;",
    " The rest| \t|«a^2047» b|of@Fat=taken taken refused taken unknown;",
    " The rest| \t|«a^2047» b|of@thé=taken taken refused taken unknown;",
    " The rest| \t|«a^2047» b|of@th=taken taken refused taken unknown;",
    " The rest| \t|«a^2047» b|of@rest=taken taken refused taken unknown",
);

/// Whether lines are case sensitive, the lines, a word, and what stands for it, or which line is the first bad one.
const SYNONYMS: &str = concat!(
    // Words that lines have and lack, in either casing.
    "no@indices index*\n@Indices=index*;no@a b\n\na *\nb *@a=bad line 3;",
    "yes@Cat Dog* rest\nCat Bird\nalone\nx x**\n@Cat=Dog*;",
    "yes@Cat Dog* rest\nCat Bird\nalone\nx x**\n@cat=unknown;",
    "yes@Cat Dog* rest\nCat Bird\nalone\nx x**\n@x=x**;",
    "yes@Cat Dog* rest\nCat Bird\nalone\nx x**\n@alone=unknown;",
    "no@Cat Dog* rest\nCat Bird\nalone\nx x**\n@cAT=dog*;",
    "no@\r\n \t a\tb\r\n@a=b;no@É É\n@É=É;no@a *b@a=*b;no@@a=unknown;",
    // The two words of a line alone count.
    "no@«a^2047» b@a=bad line 1;no@a «a^2046»*@a=bad line 1;",
    "no@«a^2047»\n«a^2046» «a^2046» «a^2047»@b=unknown",
);

/// The same of case sensitive synonyms.
const SYNONYM_LINES: &str =
    "a b|c *|c@a=taken refused taken b;a b|c *|c@c=taken refused taken unknown";

/// The stem of a word.
pub fn stemmed(alloc: Global, out: &mut String, word: &str) -> Result<(), Fail> {
    let mut bytes = word.as_bytes().to_vec(alloc)?;
    stem(&mut bytes);
    match str::from_utf8(&bytes) {
        Ok(text) => out.push_str(text)?,
        Err(_) => out.push_str("no text")?,
    }
    Ok(())
}

/// Puts for each of the words whether a stop list has it.
fn push_found(out: &mut String, stops: &StopList, words: &str) -> Result<(), AllocError> {
    for word in words.split(' ') {
        push_word(out, if stops.contains(word) { "1" } else { "0" })?;
    }
    Ok(())
}

/// Which words the stop list of a text has.
pub fn stopped(alloc: Global, out: &mut String, asked: &str) -> Result<(), Fail> {
    let (text, words) = cut(asked);
    match StopList::read(alloc, text) {
        Ok(stops) => push_found(out, &stops, words)?,
        Err(error) => write!(out, "{error}")?,
    }
    Ok(())
}

/// What the synonyms of a text have for a word.
pub fn replaced(alloc: Global, out: &mut String, asked: &str) -> Result<(), Fail> {
    let (sensitive, rest) = cut(asked);
    let (text, word) = cut(rest);
    match Synonym::read(alloc, text, sensitive == "yes") {
        Ok(synonym) => push_told(alloc, out, &synonym, word)?,
        Err(error) => write!(out, "{error}")?,
    }
    Ok(())
}

/// The answer of stems with two stop words.
pub fn porter(alloc: Global, out: &mut String, word: &str) -> Result<(), Fail> {
    let stops = StopList::read(alloc, "The\na\n")?;
    push_told(alloc, out, &Porter::new(stops), word)?;
    Ok(())
}

/// The answer of `simple` with two stop words, where it accepts.
pub fn accepted(alloc: Global, out: &mut String, word: &str) -> Result<(), Fail> {
    let stops = StopList::read(alloc, "the\nof")?;
    push_told(alloc, out, &Simple::new(stops, true), word)?;
    Ok(())
}

/// The stop list of lines, with which of them it takes.
fn stops_of(alloc: Global, out: &mut String, lines: &str) -> Result<StopList, AllocError> {
    let mut stops = StopList::new(alloc);
    for line in lines.split('|') {
        let is_taken = stops.add_line(alloc, line).is_ok();
        push_word(out, if is_taken { "taken" } else { "refused" })?;
    }
    Ok(stops)
}

/// Which lines a stop list takes, and the answer of `simple` where it doesn't accept.
pub fn passed(alloc: Global, out: &mut String, asked: &str) -> Result<(), Fail> {
    let (lines, word) = cut(asked);
    let stops = stops_of(alloc, out, lines)?;
    push_told(alloc, out, &Simple::new(stops, false), word)?;
    Ok(())
}

/// The case sensitive synonyms of lines, with which of them they take.
fn synonym_of(alloc: Global, out: &mut String, lines: &str) -> Result<Synonym, AllocError> {
    let mut synonym = Synonym::new(alloc, true);
    for line in lines.split('|') {
        let is_taken = synonym.add_line(alloc, line).is_ok();
        push_word(out, if is_taken { "taken" } else { "refused" })?;
    }
    Ok(synonym)
}

/// Which lines case sensitive synonyms take, and what they have for a word.
pub fn synonym_lines(alloc: Global, out: &mut String, asked: &str) -> Result<(), Fail> {
    let (lines, word) = cut(asked);
    let synonym = synonym_of(alloc, out, lines)?;
    push_told(alloc, out, &synonym, word)?;
    Ok(())
}

/// Words have their stems.
#[test]
fn stems(rt: HostRuntime) -> Result<(), Fail> {
    let alloc = rt.alloc();
    try_rows(&rt, alloc, Kind::Stem, STEMS, 271)?;
    try_rows(&rt, alloc, Kind::Stem, KEPT, 6)?;
    try_rows(&rt, alloc, Kind::Porter, PORTER, 6)
}

/// Stop words and synonyms are read, by texts and line by line.
#[test]
fn words(rt: HostRuntime) -> Result<(), Fail> {
    let alloc = rt.alloc();
    try_rows(&rt, alloc, Kind::Stops, STOPS, 9)?;
    try_rows(&rt, alloc, Kind::Accepted, ACCEPTED, 5)?;
    try_rows(&rt, alloc, Kind::Passed, PASSED, 6)?;
    try_rows(&rt, alloc, Kind::Synonym, SYNONYMS, 14)?;
    try_rows(&rt, alloc, Kind::SynonymLines, SYNONYM_LINES, 2)
}
