// A page that a pass holds.
ghost use Rattle.std.specs.Prelude.{◌≡◌, ◌<◌};
ghost use Rattle.page_types.specs.Pages.{IsPage};

use crate::step::Sheet;
use page_types::{PAGE_LIMIT, Page};
use std::marker::Model;

/// A page that a pass holds. Contracts see its number and what is on it.
#[derive(Debug, Drop)]
pub struct Held {
    sheet: Sheet,
}

impl Model for Held {
    ghost use Rattle.std.specs.Prelude.{◌<◌};
    ghost use Rattle.page_types.specs.Numbers.{page_limit};
    ghost use Rattle.page_types.specs.Pages.{IsPage};
    ghost use Rattle.core_state.specs.Allowed.{Sheet as SheetValue};

    ghost Value = { SheetValue };

    ghost view = { λ h. h.sheet };

    ghost invariant = { λ h. (h.sheet.page < page_limit) × IsPage h.sheet.content };
}

impl Held {
    /// The page of this number with this content.
    pub(crate) fn new(page: u32, content: Page) -> Held
        requires page { page < PAGE_LIMIT }
        requires content { IsPage content }
        ensures { result ≡ record { page = page; content = content } }
    {
        Held {
            sheet: Sheet::new(page, content),
        }
    }

    /// Its number.
    pub fn number(&self) -> u32
        ensures value { result ≡ self.now.page }
        ensures bound { result < PAGE_LIMIT }
    {
        self.sheet.page()
    }

    /// What is on it.
    pub fn page(&self) -> &Page
        ensures value { result.now ≡ self.now.content }
        ensures is_page { IsPage result.now }
    {
        self.sheet.content()
    }

    /// Its number and what is on it, which is not copied.
    pub(crate) fn into_sheet(self) -> Sheet
        ensures value { result ≡ self }
        ensures is_page { IsPage self.content }
    {
        let Held { sheet } = self;
        sheet
    }
}
