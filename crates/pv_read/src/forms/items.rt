//! Items, by their parts in the text.

/// A start tag or an empty-element tag, by its parts in the text (XML 1.0, section 3.1).
#[derive(Clone, Copy)]
pub struct Tag<'a> {
    pub name: &'a [u8],
    /// The bytes between the name and `>` or `/>`.
    pub attrs: &'a [u8],
}

/// An item, by its parts in the text.
#[derive(Clone, Copy)]
pub enum Item<'a> {
    /// An XML declaration (section 2.8), at any place.
    XmlDeclaration(&'a [u8]),
    /// A document type declaration without an internal subset (section 2.8), and the name that it
    /// gives to the root.
    Doctype { name: &'a [u8], bytes: &'a [u8] },
    /// A comment or a processing instruction (sections 2.5 and 2.6).
    CommentOrInstruction(&'a [u8]),
    /// A CDATA section (section 2.7), with its marks.
    CdataSection(&'a [u8]),
    /// A start tag (section 3.1).
    StartTag(Tag<'a>),
    /// An empty-element tag (section 3.1).
    EmptyTag(Tag<'a>),
    /// An end tag, and the white space between its name and `>`.
    EndTag { name: &'a [u8], gap: &'a [u8] },
    /// Character data with references to any names (section 2.4), up to the next `<` or the end.
    TextRun(&'a [u8]),
}
