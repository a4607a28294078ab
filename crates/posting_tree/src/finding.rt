// Where an item is sought.
ghost use Rattle.std.specs.Prelude.{◌≡◌, ◌↔◌, ◌<◌, IsTrue};
ghost use Rattle.std.specs.List.{Contains};
ghost use Rattle.page_types.specs.Numbers.{item_limit};
ghost use Rattle.page_types.specs.Items.{items_of, IsItemList};
ghost use Rattle.page_types.specs.Keys.{Rising};
ghost use Rattle.page_types.specs.Pages.{IsPage, ArePostChildren};
ghost use Rattle.page_types.specs.declared.page.Body.TheVariants as body;
ghost use Rattle.posting_tree.specs.Reading.{IsPostBody};
ghost use Rattle.posting_tree.specs.Finding.{IsFound, IsFoundIn};
ghost use Rattle.posting_tree.specs.Inner.Searching.{Below, IsDividedAt};

use page_types::{Body, Page, PostChild, PostChildren};
use posting_code::lacks;

/// What is found of an item on a page.
#[derive(Clone, Copy, Debug, PartialEq, Eq)]
pub enum Found {
    /// The leaf has the item.
    Here,
    /// The leaf does not have the item, which may be there.
    Absent,
    /// The item is sought below this child.
    Down { child: u32 },
    /// The item is above all that may be here, and is sought on this page, the right link.
    Right { page: u32 },
}

/// What is found of an item on a leaf.
fn find_item(right: u32, high: u32, list: &[u8], item: u32) -> Found
    requires list { IsItemList list.now }
    requires above { 0 < item }
    requires below { item < item_limit }
    ensures { IsFoundIn right (body.PostLeaf high list.now) item result }
{
    if high != 0 && high < item {
        return Found::Right { page: right };
    }
    if lacks(list, &[item]) {
        Found::Absent
    } else {
        Found::Here
    }
}

/// How many children have a bound below an item. Their bounds rise.
fn below(children: &[PostChild], item: u32) -> usize
    requires { Rising Below children.now }
    ensures { IsDividedAt children.now item result }
{
    children.partition_point(|child| child.bound < item)
}

/// What is found of an item on an inner page.
fn find_child(right: u32, children: &PostChildren, item: u32) -> Found
    requires { ArePostChildren right children.now }
    ensures { IsFoundIn right (body.PostInner children.now) item result }
{
    match children.get(below(children.as_slice(), item)) {
        Some(child) => Found::Down { child: child.page },
        None => Found::Right { page: right },
    }
}

/// What is found of an item on a page of a posting tree. It takes no memory.
pub fn find(page: &Page, item: u32) -> Found
    requires encoded { IsPage page.now }
    requires postings { IsPostBody page.now.body }
    requires above { 0 < item }
    requires below { item < item_limit }
    ensures { IsFound page.now item result }
{
    match &page.body {
        Body::PostLeaf { high, items } => find_item(page.right, *high, items.as_slice(), item),
        Body::PostInner(children) => find_child(page.right, children, item),
        _ => unreachable!(),
    }
}
