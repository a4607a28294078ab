// A record beside the log before it, and what several rows ask of it.
use crate::slots::head_becomes;
use log_walks::{
    Doc, Fate, Fault, Ledger, LeftBytes, LeftPage, PlainBody, PlainHead, PlainPage, Rules, Store,
    has_row, head_of, left_page, must, need, slots_in, whole_keys,
};
use page_types::{HeadFields, Record};
use std::alloc::{AllocError, Global};

/// The rule of a right link.
pub(crate) const RIGHT: &str = "a right link is as the row says";

/// The rule of what is on a page.
pub(crate) const LEFT: &str = "a page is left as the row says";

/// A page that a record changes.
#[derive(Clone, Copy)]
pub(crate) struct Changed<'a> {
    /// Its number.
    pub(crate) page: u32,
    /// As it was, unless no record had changed it.
    pub(crate) was: Option<&'a PlainPage>,
    /// As the record leaves it.
    pub(crate) left: &'a PlainPage,
}

/// By what a record is judged beside the log before it.
#[derive(Clone, Copy)]
pub struct Terms {
    /// A document is dead by so many first commits.
    pub floor: u32,
    /// A page that was deleted by a record of this number at most may be taken again.
    pub since: u64,
    /// Whether a commit asks for indexed documents.
    pub asks_index: bool,
}

/// A record that comes after a log.
#[derive(Clone, Copy)]
pub struct Step<'a> {
    /// What the rows' lists are made on.
    pub alloc: Global,
    /// The pages before the record.
    pub store: &'a Store,
    /// The transactions before it.
    pub ledger: &'a Ledger,
    /// The record.
    pub record: &'a Record,
    /// The pages that it changes, in its order, as it leaves them.
    pub left: &'a [LeftPage],
    /// By what it is judged.
    pub terms: Terms,
}

/// The pages that the record with this number changes, whose bytes are these after it.
pub fn left_pages(alloc: Global, number: u64, bytes: &[LeftBytes]) -> Result<Vec<LeftPage>, Fault> {
    let mut all = Vec::new(alloc);
    for bytes in bytes {
        all.push(left_page(alloc, number, bytes)?)?;
    }
    Ok(all)
}

impl<'a> Step<'a> {
    /// A page that it changes, which it leaves so.
    pub(crate) fn changed(&self, left: &'a LeftPage) -> Changed<'a> {
        Changed {
            page: left.page,
            was: self.store.page(left.page),
            left: &left.shown,
        }
    }

    /// The page that it changes in this place, from 0 on.
    fn at(&self, place: usize) -> Result<Changed<'a>, Fault> {
        match self.left.get(place) {
            Some(left) => Ok(self.changed(left)),
            None => Err(Fault::Broken("it changes a page")),
        }
    }

    /// The one page that it changes.
    pub(crate) fn one(&self) -> Result<Changed<'a>, Fault> {
        must(self.left.len() == 1, "it changes one page")?;
        self.at(0)
    }

    /// The first page that it changes.
    pub(crate) fn first(&self) -> Result<Changed<'a>, Fault> {
        self.at(0)
    }

    /// The two pages that it changes.
    pub(crate) fn two(&self) -> Result<(Changed<'a>, Changed<'a>), Fault> {
        must(self.left.len() == 2, "it changes two pages")?;
        Ok((self.at(0)?, self.at(1)?))
    }

    /// The three pages that it changes.
    pub(crate) fn three(&self) -> Result<(Changed<'a>, Changed<'a>, Changed<'a>), Fault> {
        must(self.left.len() == 3, "it changes three pages")?;
        Ok((self.at(0)?, self.at(1)?, self.at(2)?))
    }
}

impl Step<'_> {
    /// The record changes no page.
    pub(crate) fn changes_none(&self) -> Rules {
        Rules::new().and(self.left.is_empty(), "it changes no page")
    }

    /// Its transaction runs.
    pub(crate) fn runs(&self) -> Rules {
        let fate = self.ledger.fate(self.record.xid);
        Rules::new().and(fate == Fate::Running, "the xid runs")
    }

    /// The head of the document, which the record's transaction placed, and this runs.
    pub(crate) fn own_head(&self, doc: Doc) -> Result<&PlainHead, Fault> {
        let head = need(head_of(self.store, doc), "the document has its slot")?;
        let by = head.fields.inserted_by;
        let rules = self
            .runs()
            .and(by == self.record.xid, "the xid placed the head");
        rules.end()?;
        Ok(head)
    }

    /// The keys of the document with this head, which is whole.
    pub(crate) fn keys_of(&self, head: &PlainHead) -> Result<Vec<Vec<u8>>, Fault> {
        let keys = whole_keys(self.alloc, self.store, head)?;
        need(keys, "the document is whole")
    }

    /// The keys of the own document, which is whole and has no linked row.
    pub(crate) fn keys_to_link(&self, doc: Doc) -> Result<Vec<Vec<u8>>, Fault> {
        must(!has_row(self.store, doc.item), "no row of it is linked")?;
        self.keys_of(self.own_head(doc)?)
    }

    /// The page is new: the lowest one that no record has changed, or one that was deleted early enough.
    pub(crate) fn is_new(&self, new: Changed<'_>) -> Rules {
        match new.was {
            None => Rules::new().and(
                new.page == self.store.lowest_unused(),
                "the new page is the lowest unused one",
            ),
            Some(was) => Rules::new().and(
                was.deleted && was.stamp <= self.terms.since,
                "the new page was deleted early enough",
            ),
        }
    }
}

impl<'a> Changed<'a> {
    /// What was on the page, unless it was deleted or unused.
    pub(crate) fn was_live(&self) -> Option<&'a PlainBody> {
        match self.was {
            Some(was) => was.live(),
            None => None,
        }
    }

    /// Whether this is what is on the page, which is not deleted.
    pub(crate) fn holds(&self, body: &PlainBody) -> bool {
        !self.left.deleted && self.left.body == *body
    }

    /// Whether the page stays in use, and what is on it.
    pub(crate) fn keeps_body(&self) -> bool {
        match self.was_live() {
            Some(was) => self.holds(was),
            None => false,
        }
    }

    /// Whether the page's right link is this one.
    pub(crate) fn leads_to(&self, right: u32) -> bool {
        self.left.right == right
    }

    /// The right link that the page had, or 0.
    pub(crate) fn right_before(&self) -> u32 {
        match self.was {
            Some(was) => was.right,
            None => 0,
        }
    }

    /// Whether the page keeps its right link.
    pub(crate) fn keeps_right(&self) -> bool {
        self.leads_to(self.right_before())
    }

    /// The page gets this right link, and this is on it.
    pub(crate) fn becomes(&self, right: u32, body: &PlainBody) -> Rules {
        Rules::new()
            .and(self.leads_to(right), RIGHT)
            .and(self.holds(body), LEFT)
    }

    /// The page becomes Deleted, and keeps its body and its right link.
    pub(crate) fn is_deleted(&self) -> Rules {
        match self.was {
            None => Rules::new().and(false, "a page in use is deleted"),
            Some(was) => Rules::new()
                .and(!was.deleted, "a page in use is deleted")
                .and(self.left.deleted, "the page becomes Deleted")
                .and(self.left.body == was.body, "a deleted page keeps its body")
                .and(self.leads_to(was.right), RIGHT),
        }
    }

    /// The page is the document's heap page, and nothing of it changes but the head, which gets these fields.
    pub(crate) fn gives_head(&self, doc: Doc, fields: HeadFields) -> Rules {
        let was = slots_in(self.was_live());
        let left = slots_in(self.left.live());
        Rules::new()
            .and(self.page == doc.page(), "it changes the item's heap page")
            .and(self.keeps_right(), RIGHT)
            .and(head_becomes(was, left, doc.slot(), fields), LEFT)
    }
}
