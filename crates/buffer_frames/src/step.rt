// A step: what is to be logged.
ghost use Rattle.std.specs.Prelude.{◌≡◌, [], ◌∷◌, ◌++◌, OnOk, OnErr};
ghost use Rattle.buffer_frames.specs.Drawing.{made_sheet, made_sheets};

use crate::drawing::make_page;
use page_types::{Kind, Page, Record};
use std::alloc::{AllocError, Global};
use std::marker::Model;

/// A page as a step leaves it.
#[derive(Debug, Drop)]
pub struct Sheet {
    page: u32,
    content: Page,
}

impl Model for Sheet {
    ghost use Rattle.core_state.specs.Allowed.{Sheet as SheetValue};

    ghost Value = { SheetValue };

    ghost view = { λ s. record { page = s.page; content = s.content } };
}

impl Sheet {
    /// The page of this number with this content.
    pub fn new(page: u32, content: Page) -> Sheet
        ensures { result ≡ record { page = page; content = content } }
    {
        Sheet { page, content }
    }

    /// The number of the page.
    pub fn page(&self) -> u32
        ensures { result ≡ self.now.page }
    {
        self.page
    }

    /// What is on it.
    pub fn content(&self) -> &Page
        ensures { result.now ≡ self.now.content }
    {
        &self.content
    }

    /// The page is from now on as the record makes it.
    fn make(&mut self, rec: &Record)
        ensures { self.new ≡ made_sheet rec.now self.old }
    {
        make_page(rec, &mut self.content);
    }

    /// What is on it, which is not copied.
    pub fn into_content(self) -> Page
        ensures { result ≡ self.content }
    {
        let Sheet { content, .. } = self;
        content
    }
}

/// What is to be logged: a kind, an xid, and the pages that it leaves. Its numbers, the stamps of its
/// pages and a new head's serial are drawn when it is.
#[derive(Debug, Drop)]
pub struct Step {
    kind: Kind,
    xid: u32,
    after: Vec<Sheet>,
}

impl Model for Step {
    ghost use Rattle.core_state.specs.Allowed.{Step as StepValue};

    ghost Value = { StepValue };

    ghost view = { λ s. record { kind = s.kind; xid = s.xid; after = s.after.items } };
}

/// What was drawn for a record: its number, and the xid, the commit number or the serial; 0 where
/// there is none.
#[derive(Clone, Copy, Debug, PartialEq, Eq)]
pub struct Drawn {
    /// The record's number.
    pub number: u64,
    /// The xid, the commit number or the serial.
    pub value: u64,
}

impl Step {
    /// A step of this kind and xid, which leaves no page yet.
    pub fn new(alloc: Global, kind: Kind, xid: u32) -> Step
        ensures { result ≡ record { kind = kind; xid = xid; after = [] } }
    {
        Step {
            kind,
            xid,
            after: Vec::new(alloc),
        }
    }

    /// One page more that it leaves, after the others. Without memory they stay as they are.
    pub fn leave(&mut self, sheet: Sheet) -> Result<(), AllocError>
        ensures ok { OnOk result
            (self.new ≡ record self.old { after = self.old.after ++ sheet ∷ [] }) }
        ensures err { OnErr result (self.new ≡ self.old) }
    {
        self.after.push(sheet)?;
        Ok(())
    }

    /// Its kind.
    pub fn kind(&self) -> Kind
        ensures { result ≡ self.now.kind }
    {
        self.kind
    }

    /// Its xid.
    pub fn xid(&self) -> u32
        ensures { result ≡ self.now.xid }
    {
        self.xid
    }

    /// The pages that it leaves, by reference.
    pub(crate) fn sheets(&self) -> &[Sheet]
        ensures { result.now ≡ self.now.after }
    {
        self.after.as_slice()
    }

    /// Its pages are from now on as the record makes them.
    pub(crate) fn make_pages(&mut self, rec: &Record)
        ensures { self.new ≡ record self.old { after = made_sheets rec.now self.old.after } }
    {
        for sheet in self.after.iter_mut() {
            sheet.make(rec);
        }
    }

    /// The pages that it leaves, which are not copied.
    pub fn into_sheets(self) -> Vec<Sheet>
        ensures { result.items ≡ self.after }
    {
        let Step { after, .. } = self;
        after
    }
}
