//! Items as parts of the text, with names as they are spelled.

/// A content particle with its names as they are spelled (XML 1.0, section 3.2.1, cp).
#[derive(Drop)]
pub enum SpelledPart<'a> {
    Name(&'a [u8]),
    Seq(Vec<SpelledPart<'a>>),
    Choice(Vec<SpelledPart<'a>>),
    Opt(Box<SpelledPart<'a>>),
    Star(Box<SpelledPart<'a>>),
    Plus(Box<SpelledPart<'a>>),
}

/// A content model with its names as they are spelled (XML 1.0, section 3.2, contentspec).
#[derive(Drop)]
pub enum SpelledModel<'a> {
    Empty,
    Any,
    Mixed(Vec<&'a [u8]>),
    Children(Box<SpelledPart<'a>>),
}

/// An item of a DTD's text: an element declaration with what it declares (XML 1.0, section 3.2), or
/// one that declares no element and is skipped.
#[derive(Drop)]
pub enum SpelledItem<'a> {
    TextDeclaration,
    Element(&'a [u8], SpelledModel<'a>),
    Skipped,
    Comment,
    Instruction,
}
