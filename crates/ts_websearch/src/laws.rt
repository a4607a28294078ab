// What holds of every web text.
ghost use Rattle.ts_websearch.specs.Laws.{ItemsAreOne, RowsAreOne, WebAnswerIsOne};

/// A text has exactly one list of items.
pub fn items_are_one()
    ensures { ItemsAreOne }
{}

/// Items have exactly one list of rows.
pub fn rows_are_one()
    ensures { RowsAreOne }
{}

/// Running out of memory aside, a web text is made one query by a configuration, or is refused for one cause.
pub fn web_answer_is_one()
    ensures { WebAnswerIsOne }
{}
