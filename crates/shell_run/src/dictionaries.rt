// Definitions of dictionaries, from the lines of their bodies.
ghost use Rattle.std.specs.Prelude.{◌≡◌, ◌↔◌, All, IfOk, IfErr, OnOk, IsTrue};
ghost use Rattle.std.specs.Str.{IsUtf8};
ghost use Rattle.ts_words.specs.StopLists.{IsBadLine as IsBadStopLine, IsStopList};
ghost use Rattle.ts_words.specs.StopLists.{Adds as AddsStop};
ghost use Rattle.ts_synonym.specs.Synonyms.{IsBadLine as IsBadSynonymLine, IsSynonymList};
ghost use Rattle.ts_synonym.specs.Synonyms.{Adds as AddsSynonym};
ghost use Rattle.ts_thesaurus.specs.Lines.{AreRules, IsRefused, Adds as AddsRule};
ghost use Rattle.ts_config.specs.Rules.{rules_of, answer_by};
ghost use Rattle.shell_script.specs.Grammar.{define as defines};
ghost use Rattle.shell_script.specs.OpeningLines.{dictionary_opening, thesaurus_kind};
ghost use Rattle.shell_script.specs.OpeningLineView.{kind as kind_of};
ghost use Rattle.shell_script.specs.StepView.{line as shown};
ghost use Rattle.shell_script.specs.Says.{counted_lines};
ghost use Rattle.shell_script.specs.ReplyView.{refusal, reply};
ghost use Rattle.shell_run.specs.Defining.{IsNoLine, LacksOne, IsBadFor, IsDictionaryOf, IsDefined, Becomes};
ghost use Rattle.shell_run.specs.Inner.Definitions.{IsMadeOf, LineBad, LinesBad};
ghost use Rattle.shell_run.specs.Inner.Refusing.{line_refusal};

use crate::body_lines::{FromLines, take_lines};
use porter_stem::Porter;
use shell_script::{Kind, Line, Lines, Refusal, Reply};
use std::alloc::Global;
use std::str;
use ts_base::LineError;
use ts_config::{AnyDictionary, Configs};
use ts_synonym::Synonym;
use ts_thesaurus::Thesaurus;
use ts_words::{Simple, StopList};

/// The refusal that a fault in the line of this number is printed as.
fn line_refused(error: LineError, number: u64) -> Refusal
    ensures { refusal result ≡ line_refusal error number }
{
    match error {
        LineError::Bad | LineError::StopInSample | LineError::UnknownInSample => {
            Refusal::NoStatement(number)
        }
        LineError::Memory => Refusal::Memory,
    }
}

/// Adds the stop word of a line.
fn add_stop(alloc: Global, stops: &mut StopList, line: Line<'_>) -> Result<(), Refusal>
    ensures added { OnOk result (IsUtf8 line.entry.bytes.now
        × AddsStop line.entry.bytes.now stops.old stops.new) }
    ensures refused { IfErr result
        (λ why. LineBad (IsNoLine IsBadStopLine) (shown line.entry) (refusal why)) }
{
    let Ok(text) = str::from_utf8(line.bytes) else {
        return Err(Refusal::NoStatement(line.number));
    };
    match stops.add_line(alloc, text) {
        Ok(()) => Ok(()),
        Err(error) => Err(line_refused(error, line.number)),
    }
}

impl FromLines for StopList {
    ghost takes = { λ l old new. IsUtf8 l.bytes × AddsStop l.bytes old new };

    ghost refuses = { λ l old why. LineBad (IsNoLine IsBadStopLine) l why };

    fn take(&mut self, alloc: Global, line: Line<'_>) -> Result<(), Refusal> {
        add_stop(alloc, self, line)
    }
}

/// The stop words of a body.
fn stop_words(alloc: Global, body: Lines<'_>) -> Result<StopList, Refusal>
    ensures stops { IfOk result
        (IsMadeOf (IsNoLine IsBadStopLine) IsStopList (counted_lines body.entry)) }
    ensures refused { IfErr result
        (λ why. LinesBad (IsNoLine IsBadStopLine) (counted_lines body.entry) (refusal why)) }
{
    let mut stops = StopList::new(alloc);
    match take_lines(alloc, &mut stops, body) {
        Ok(()) => Ok(stops),
        Err(why) => Err(why),
    }
}

/// Adds the synonym of a line.
fn add_synonym(alloc: Global, synonym: &mut Synonym, line: Line<'_>) -> Result<(), Refusal>
    ensures added { OnOk result (IsUtf8 line.entry.bytes.now
        × AddsSynonym line.entry.bytes.now synonym.old synonym.new) }
    ensures refused { IfErr result
        (λ why. LineBad (IsNoLine IsBadSynonymLine) (shown line.entry) (refusal why)) }
{
    let Ok(text) = str::from_utf8(line.bytes) else {
        return Err(Refusal::NoStatement(line.number));
    };
    match synonym.add_line(alloc, text) {
        Ok(()) => Ok(()),
        Err(error) => Err(line_refused(error, line.number)),
    }
}

impl FromLines for Synonym {
    ghost takes = { λ l old new. IsUtf8 l.bytes × AddsSynonym l.bytes old new };

    ghost refuses = { λ l old why. LineBad (IsNoLine IsBadSynonymLine) l why };

    fn take(&mut self, alloc: Global, line: Line<'_>) -> Result<(), Refusal> {
        add_synonym(alloc, self, line)
    }
}

/// The synonyms of a body.
fn synonyms_of(alloc: Global, case_sensitive: bool, body: Lines<'_>) -> Result<Synonym, Refusal>
    ensures list { IfOk result
        (IsMadeOf (IsNoLine IsBadSynonymLine) (IsSynonymList case_sensitive) (counted_lines body.entry)) }
    ensures refused { IfErr result
        (λ why. LinesBad (IsNoLine IsBadSynonymLine) (counted_lines body.entry) (refusal why)) }
{
    let mut synonym = Synonym::new(alloc, case_sensitive);
    match take_lines(alloc, &mut synonym, body) {
        Ok(()) => Ok(synonym),
        Err(why) => Err(why),
    }
}

/// Adds the rule of a line, over this dictionary.
fn add_rule(
    alloc: Global,
    thesaurus: &mut Thesaurus,
    sub: &AnyDictionary,
    line: Line<'_>,
) -> Result<(), Refusal>
    ensures added { OnOk result (IsUtf8 line.entry.bytes.now
        × AddsRule (answer_by (rules_of sub.now)) line.entry.bytes.now thesaurus.old
        thesaurus.new) }
    ensures refused { IfErr result (λ why. LineBad (IsNoLine (IsRefused (answer_by (rules_of sub.now))))
        (shown line.entry) (refusal why)) }
{
    let Ok(text) = str::from_utf8(line.bytes) else {
        return Err(Refusal::NoStatement(line.number));
    };
    match thesaurus.add_line(alloc, text, sub) {
        Ok(()) => Ok(()),
        Err(error) => Err(line_refused(error, line.number)),
    }
}

/// The rules of a thesaurus that is being read, over a dictionary.
#[derive(Drop)]
struct RulesOver<'a> {
    /// The rules so far.
    thesaurus: Thesaurus,
    /// The dictionary.
    sub: &'a AnyDictionary,
}

impl<'a> FromLines for RulesOver<'a> {
    ghost takes = { λ l old new. (new.sub ≡ old.sub) × IsUtf8 l.bytes
        × AddsRule (answer_by (rules_of old.sub.now)) l.bytes old.thesaurus new.thesaurus };

    ghost refuses = { λ l old why. LineBad (IsNoLine (IsRefused (answer_by (rules_of old.sub.now))))
        l why };

    fn take(&mut self, alloc: Global, line: Line<'_>) -> Result<(), Refusal> {
        add_rule(alloc, &mut self.thesaurus, self.sub, line)
    }
}

/// The rules of a body, over this dictionary.
fn rules_in(alloc: Global, sub: &AnyDictionary, body: Lines<'_>) -> Result<Thesaurus, Refusal>
    ensures rules { IfOk result (IsMadeOf (IsNoLine (IsRefused (answer_by (rules_of sub.now))))
        (AreRules (answer_by (rules_of sub.now))) (counted_lines body.entry)) }
    ensures refused { IfErr result (λ why. LinesBad
        (IsNoLine (IsRefused (answer_by (rules_of sub.now)))) (counted_lines body.entry) (refusal why)) }
{
    let mut rules = RulesOver {
        thesaurus: Thesaurus::new(alloc),
        sub,
    };
    match take_lines(alloc, &mut rules, body) {
        Ok(()) => Ok(rules.thesaurus),
        Err(why) => Err(why),
    }
}

/// Whether a kind goes over a dictionary that isn't there, or is a thesaurus.
fn lacks_one(configs: &Configs, kind: Kind<'_>) -> bool
    ensures { IsTrue result ↔ LacksOne configs.now (kind_of kind.entry) }
{
    match kind {
        Kind::Simple { .. } | Kind::Porter | Kind::Synonym { .. } => false,
        Kind::Thesaurus { sub } => configs.subdictionary(sub).is_none(),
    }
}

/// The thesaurus that has these lines, over the dictionary of this name.
fn thesaurus_of(
    alloc: Global,
    configs: &Configs,
    sub: &str,
    body: Lines<'_>,
) -> Result<AnyDictionary, Refusal>
    requires { ¬ LacksOne configs.now (thesaurus_kind sub.now) }
    ensures good { IfOk result (λ d. All (λ l. ¬ IsBadFor configs.now (thesaurus_kind sub.now) l)
        (counted_lines body.entry)) }
    ensures made { IfOk result (λ d. IsDictionaryOf configs.now (thesaurus_kind sub.now)
        (counted_lines body.entry) (rules_of d)) }
    ensures refused { IfErr result (λ why. LinesBad
        (λ l. IsBadFor configs.now (thesaurus_kind sub.now) l) (counted_lines body.entry)
        (refusal why)) }
{
    let Some(dictionary) = configs.subdictionary(sub) else {
        unreachable!()
    };
    let thesaurus = match rules_in(alloc, dictionary, body) {
        Ok(thesaurus) => thesaurus,
        Err(why) => return Err(why),
    };
    match String::from_str(alloc, sub) {
        Ok(sub) => Ok(AnyDictionary::Thesaurus(thesaurus, sub)),
        Err(_) => Err(Refusal::Memory),
    }
}

/// The dictionary of a kind that has these lines.
fn dictionary_of(
    alloc: Global,
    configs: &Configs,
    kind: Kind<'_>,
    body: Lines<'_>,
) -> Result<AnyDictionary, Refusal>
    requires { ¬ LacksOne configs.now (kind_of kind) }
    ensures good { IfOk result
        (λ d. All (λ l. ¬ IsBadFor configs.now (kind_of kind.entry) l) (counted_lines body.entry)) }
    ensures made { IfOk result (λ d. IsDictionaryOf configs.now (kind_of kind.entry)
        (counted_lines body.entry) (rules_of d)) }
    ensures refused { IfErr result (λ why. LinesBad (λ l. IsBadFor configs.now (kind_of kind.entry) l)
        (counted_lines body.entry) (refusal why)) }
{
    match kind {
        Kind::Simple { accept } => match stop_words(alloc, body) {
            Ok(stops) => Ok(AnyDictionary::Simple(Simple::new(stops, accept))),
            Err(why) => Err(why),
        },
        Kind::Porter => match stop_words(alloc, body) {
            Ok(stops) => Ok(AnyDictionary::Porter(Porter::new(stops))),
            Err(why) => Err(why),
        },
        Kind::Synonym { case_sensitive } => match synonyms_of(alloc, case_sensitive, body) {
            Ok(synonym) => Ok(AnyDictionary::Synonym(synonym)),
            Err(why) => Err(why),
        },
        Kind::Thesaurus { sub } => thesaurus_of(alloc, configs, sub, body),
    }
}

/// Defines a dictionary. Where that is refused nothing has changed.
pub fn define_dictionary(
    alloc: Global,
    configs: &mut Configs,
    number: u64,
    name: &str,
    kind: Kind<'_>,
    body: Lines<'_>,
) -> Reply
    ensures answered { IsDefined configs.old number (dictionary_opening name.now (kind_of kind.entry))
        (counted_lines body.entry) (reply result) }
    ensures becomes { Becomes configs.old
        (defines (dictionary_opening name.now (kind_of kind.entry)) (counted_lines body.entry))
        (reply result) configs.new }
{
    if lacks_one(configs, kind) {
        return Reply::Refused(Refusal::NoDictionary);
    }
    if configs.dictionary(name).is_some() {
        return Reply::Refused(Refusal::NoStatement(number));
    }
    let dictionary = match dictionary_of(alloc, configs, kind, body) {
        Ok(dictionary) => dictionary,
        Err(why) => return Reply::Refused(why),
    };
    match configs.add_dictionary(alloc, name, dictionary) {
        Ok(()) => Reply::Done,
        Err(_) => Reply::Refused(Refusal::Memory),
    }
}
