// Whether a log is legal.
use crate::lines::push_number;
use crate::prefix::{Prefix, deltas_apply};
use crate::same::same_in_front;
use crate::told::CORE_DIFFERS;
use log_walks::{Fault, Ledger, LogError, read_log};
use page_types::Record;
use std::alloc::{AllocError, Global};

/// What a log is.
#[derive(Clone, Copy)]
pub(crate) enum Verdict {
    /// Each record may follow those before it.
    Legal,
    /// The opening refuses it.
    NotAStore,
    /// The records before this one are a legal log, and it may not follow them, since this rule is broken.
    NotValid { number: u64, rule: &'static str },
}

/// What is wrong with a record that breaks this rule.
fn wrong_by(rule: &str) -> &'static str {
    if rule == CORE_DIFFERS {
        " is another to the core"
    } else {
        " is not valid"
    }
}

impl Verdict {
    /// Puts the verdict after a line.
    fn push(self, line: &mut String) -> Result<(), AllocError> {
        match self {
            Verdict::Legal => line.push_str("legal"),
            Verdict::NotAStore => line.push_str("not a store"),
            Verdict::NotValid { number, rule } => {
                push_number(line, "record ", number)?;
                line.push_str(wrong_by(rule))
            }
        }
    }

    /// The verdict's text.
    pub(crate) fn text(self, alloc: Global) -> Result<String, AllocError> {
        let mut line = String::new(alloc);
        self.push(&mut line)?;
        Ok(line)
    }

    /// What is printed after it: the rule that is broken, where one is.
    pub(crate) fn rule(self) -> (&'static str, &'static str) {
        match self {
            Verdict::NotValid { rule, .. } => (", broken: ", rule),
            _ => ("", ""),
        }
    }
}

/// A log that was judged.
#[derive(Drop)]
pub(crate) struct Judged {
    /// All records that were read.
    pub(crate) records: Vec<Record>,
    /// The log as far as it is valid.
    prefix: Prefix,
    /// The verdict.
    pub(crate) verdict: Verdict,
}

impl Judged {
    /// A log with these records, if it has any, before they are judged.
    fn new(alloc: Global, records: Option<Vec<Record>>) -> Judged {
        match records {
            Some(records) => Judged {
                records,
                prefix: Prefix::new(alloc),
                verdict: Verdict::Legal,
            },
            None => Judged {
                records: Vec::new(alloc),
                prefix: Prefix::new(alloc),
                verdict: Verdict::NotAStore,
            },
        }
    }

    /// The transactions after the valid records.
    pub(crate) fn ledger(&self) -> &Ledger {
        &self.prefix.ledger
    }

    /// The records are judged. That these are a legal log, with which they may begin, is known.
    fn judge(
        &mut self,
        alloc: Global,
        beginning: &[Record],
        asks_index: bool,
    ) -> Result<(), AllocError> {
        if matches!(self.verdict, Verdict::Legal) {
            know_beginning(alloc, &self.records, beginning, &mut self.prefix)?;
            self.verdict = judge_rest(alloc, &self.records, &mut self.prefix, asks_index)?;
        }
        Ok(())
    }
}

/// The records of a log; none where it is no store.
pub(crate) fn records_of(alloc: Global, log: &[u8]) -> Result<Option<Vec<Record>>, AllocError> {
    match read_log(alloc, log) {
        Ok(records) => Ok(Some(records)),
        Err(LogError::OutOfMemory) => Err(AllocError),
        Err(LogError::NotAStore) => Ok(None),
    }
}

/// What a log is whose records are valid before this one, which came after them so.
fn verdict_of(record: &Record, came: Result<(), Fault>) -> Result<Verdict, AllocError> {
    match came {
        Ok(()) => Ok(Verdict::Legal),
        Err(Fault::OutOfMemory) => Err(AllocError),
        Err(Fault::Broken(rule)) => Ok(Verdict::NotValid {
            number: record.number,
            rule,
        }),
    }
}

/// The first record that is not valid after those before it, and the rule that it breaks. The log of the first ones,
/// which are valid, is known.
fn first_invalid(
    alloc: Global,
    records: &[Record],
    prefix: &mut Prefix,
    asks_index: bool,
) -> Result<Verdict, AllocError> {
    for record in records {
        if record.number > prefix.ledger.records {
            let came = prefix.follow(alloc, records, record, asks_index);
            let verdict = verdict_of(record, came)?;
            if !matches!(verdict, Verdict::Legal) {
                return Ok(verdict);
            }
        }
    }
    Ok(Verdict::Legal)
}

/// The log with these records as far as they are known to be valid: they may begin with these, which are a legal log.
fn know_beginning(
    alloc: Global,
    records: &[Record],
    beginning: &[Record],
    prefix: &mut Prefix,
) -> Result<(), AllocError> {
    if same_in_front(records, beginning) < beginning.len() {
        return Ok(());
    }
    match prefix.know(alloc, beginning) {
        Ok(()) => {}
        Err(Fault::OutOfMemory) => return Err(AllocError),
        Err(Fault::Broken(_)) => prefix.clear(alloc),
    }
    Ok(())
}

/// What the log with these records is, which begins so.
fn judge_rest(
    alloc: Global,
    records: &[Record],
    prefix: &mut Prefix,
    asks_index: bool,
) -> Result<Verdict, AllocError> {
    if deltas_apply(alloc, records)? {
        first_invalid(alloc, records, prefix, asks_index)
    } else {
        Ok(Verdict::NotAStore)
    }
}

/// What a log file is. That these records are a legal log, with which it may begin, is known.
pub(crate) fn judge(
    alloc: Global,
    log: &[u8],
    beginning: &[Record],
    asks_index: bool,
) -> Result<Judged, AllocError> {
    let mut judged = Judged::new(alloc, records_of(alloc, log)?);
    judged.judge(alloc, beginning, asks_index)?;
    Ok(judged)
}

/// The verdict alone.
pub(crate) fn judge_alone(
    alloc: Global,
    log: &[u8],
    beginning: &[Record],
    asks_index: bool,
) -> Result<Verdict, AllocError> {
    Ok(judge(alloc, log, beginning, asks_index)?.verdict)
}
