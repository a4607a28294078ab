// What may be logged of the pages that are made here.
ghost use Rattle.doc_heap.specs.Logging.{PlacedMayBeLogged, MarkedMayBeLogged};

/// A step that leaves a page with a head placed on it, or with one marked, has what its record asks of
/// the page.
pub fn pages_may_be_logged()
    ensures placed { PlacedMayBeLogged }
    ensures marked { MarkedMayBeLogged }
{}
