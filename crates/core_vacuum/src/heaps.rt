// Which pages are heap pages.
ghost use Rattle.core_vacuum.specs.HeapPages.{HeapPagesHold};

/// In a legal log just the pages on which a head was placed, which `heap_from` of a state answers, are heap
/// pages, and each document that has its slot is on one.
pub fn heap_pages_stand()
    ensures { HeapPagesHold }
{}
