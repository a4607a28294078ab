// Pages in memory by their numbers.
ghost use Rattle.std.specs.Prelude.{◌≡◌, ◌≢◌, ◌⊎◌, ◌<◌, ◌≤◌, ◌^◌, ℕ, length, set, All, OnOk, OnErr, IfOk, IfErr};
ghost use Rattle.page_types.specs.Keys.{Rising};
ghost use Rattle.page_types.specs.Pages.{IsPage};
ghost use Rattle.page_types.specs.Encoding.{page_bytes};
ghost use Rattle.core_state.specs.Allowed.{sheet_pages};
ghost use Rattle.page_types.specs.declared.page.Page.{Page as PageValue};
ghost use Rattle.page_types.specs.Views.{free_page as free};
ghost use Rattle.buffer_frames.specs.Homes.{home_at, home_of, HavePages, IsNoPage, LiesAs};
ghost use Rattle.buffer_frames.specs.Homes.{IsNoPageHere, BadPageWhere, HasTaken, AreAlike, HasPut};
ghost use Rattle.buffer_frames.specs.declared.frame_error.FrameError.TheVariants.{BadPage, OutOfMemory};
ghost use Rattle.buffer_frames.specs.declared.home.Home.TheVariants.{Content, Away};

use crate::frame_error::FrameError;
use crate::held::Held;
use crate::step::Sheet;
use page_code::{PageError, decode_page};
use page_types::{Body, Page, PageBytes};
use std::alloc::{AllocError, Global};
use std::mem;

/// Where a page is in memory.
#[derive(Debug, Drop)]
pub enum Home {
    /// No record has changed it.
    Free,
    /// Nobody held it yet: its bytes.
    Bytes(PageBytes),
    /// The page.
    Content(Page),
    /// Somebody holds it.
    Away,
}

impl Home {
    /// Where a page lies that has these bytes, or is free.
    pub(crate) fn of(raw: Option<PageBytes>) -> Home
        ensures { result ≡ home_of raw }
    {
        match raw {
            Some(raw) => Home::Bytes(raw),
            None => Home::Free,
        }
    }
}

/// A page that no record has changed.
fn free_page() -> Page
    ensures { result ≡ free }
{
    Page {
        right: 0,
        stamp: 0,
        body: Body::Free,
    }
}

/// The page of these bytes.
fn decoded(alloc: Global, page: u32, raw: &PageBytes) -> Result<Page, FrameError>
    ensures page { IfOk result (λ c. IsPage c × (raw.now ≡ page_bytes c)) }
    ensures bad { BadPageWhere ((c : PageValue) → IsPage c → raw.now ≡ page_bytes c → ⊥) page result }
    ensures error { IfErr result (λ e. (e ≡ BadPage page) ⊎ (e ≡ OutOfMemory)) }
{
    match decode_page(alloc, raw.as_slice()) {
        Ok(content) => Ok(content),
        Err(PageError::BadPage { .. }) => Err(FrameError::BadPage { page }),
        Err(PageError::OutOfMemory) => Err(FrameError::OutOfMemory),
    }
}

/// There is a home for this page.
#[tactic(auto, using(crate::proofs::Padded::get_or_padded))]
pub(crate) fn make_home(homes: &mut Vec<Home>, page: usize) -> Result<(), AllocError>
    requires { page < 2 ^ 63 }
    ensures there { OnOk result (page < length homes.new.items) }
    ensures same { (p : ℕ) → home_at homes.new.items p ≡ home_at homes.old.items p }
    ensures longer { length homes.old.items ≤ length homes.new.items }
{
    let missing = (page + 1).saturating_sub(homes.len());
    homes.reserve(missing)?;
    for added in 0..missing {
        let _ = added;
        homes.push_reserved(Home::Free);
    }
    Ok(())
}

/// The page that lies here, which is from now on away. Where somebody holds it there is no memory.
/// Without the page it stays as it is.
fn take_home(alloc: Global, page: u32, home: &mut Home) -> Result<Page, FrameError>
    ensures taken { IfOk result (λ c. LiesAs home.old c × (home.new ≡ Away)) }
    ensures same { OnErr result (home.new ≡ home.old) }
    ensures bad { BadPageWhere (IsNoPageHere home.old) page result }
    ensures error { IfErr result (λ e. (e ≡ BadPage page) ⊎ (e ≡ OutOfMemory)) }
{
    match mem::replace(home, Home::Away) {
        Home::Free => Ok(free_page()),
        Home::Bytes(raw) => {
            let content = decoded(alloc, page, &raw);
            if content.is_err() {
                *home = Home::Bytes(raw);
            }
            content
        }
        Home::Content(content) => Ok(content),
        Home::Away => Err(FrameError::OutOfMemory),
    }
}

/// The page with this number, which is from now on away. Where somebody holds it there is no memory.
/// Without the page all stay where they are.
pub(crate) fn take_page(alloc: Global, homes: &mut Vec<Home>, page: u32) -> Result<Page, FrameError>
    requires { HavePages homes.old.items }
    ensures taken { IfOk result (λ c. HasTaken homes.old.items homes.new.items page c) }
    ensures same { OnErr result (AreAlike homes.old.items homes.new.items) }
    ensures bad { BadPageWhere (IsNoPage homes.old.items page) page result }
    ensures error { IfErr result (λ e. (e ≡ BadPage page) ⊎ (e ≡ OutOfMemory)) }
{
    let place = page as usize;
    make_home(homes, place)?;
    take_home(alloc, page, &mut homes[place])
}

/// The page lies here from now on.
pub(crate) fn put_page(homes: &mut Vec<Home>, sheet: Sheet)
    requires { sheet.page < length homes.old.items }
    ensures { homes.new.items ≡ set homes.old.items sheet.page (Content sheet.content) }
{
    let place = sheet.page() as usize;
    homes[place] = Home::Content(sheet.into_content());
}

/// The pages lie here from now on.
pub(crate) fn put_sheets(homes: &mut Vec<Home>, sheets: Vec<Sheet>)
    requires there { All (λ x. x.page < length homes.old.items) sheets.items }
    requires once { Rising (λ p q. p ≢ q) (sheet_pages sheets.items) }
    ensures { HasPut homes.old.items homes.new.items sheets.items }
{
    let mut sheets = sheets;
    while let Some(sheet) = sheets.pop() {
        put_page(homes, sheet);
    }
}

/// The pages that were held lie here again.
pub(crate) fn put_held(homes: &mut Vec<Home>, held: Vec<Held>)
    requires there { All (λ x. x.page < length homes.old.items) held.items }
    requires once { Rising (λ p q. p ≢ q) (sheet_pages held.items) }
    ensures put { HasPut homes.old.items homes.new.items held.items }
    ensures pages { HavePages homes.old.items → HavePages homes.new.items }
{
    let mut held = held;
    while let Some(one) = held.pop() {
        put_page(homes, one.into_sheet());
    }
}
