// What holds of reading and encoding.
ghost use Rattle.page_code.specs.Laws.{ReadingIsEncoded, EncodingIsRead};

/// What is read is encoded so, and what is encoded so is read.
pub fn encodings_are_read()
    ensures found { ReadingIsEncoded }
    ensures only { EncodingIsRead }
{}
