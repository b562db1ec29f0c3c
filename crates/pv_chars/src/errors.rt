//! Why bytes are no text.

/// Why bytes are no text: nothing at all, or the first thing from the left that is no unit, by its
/// place in bytes.
///
/// ```rust
/// // test_layers: texts
/// assert!(rt; matches!(text_units(alloc, b"a<b"), Err(TextError::BadChar(1))));
/// assert!(rt; matches!(text_units(alloc, b"&lt;&nbsp;"), Err(TextError::Entity(4))));
/// ```
#[derive(Clone, Copy, Debug, PartialEq, Eq)]
pub enum TextError {
    /// There are no bytes.
    Empty,
    /// A `<`, or no Char in UTF-8 (XML 1.0, section 2.2).
    BadChar(usize),
    /// A `&` that begins no reference (section 4.1).
    BadReference(usize),
    /// A reference to a name that isn't predefined (section 4.6).
    Entity(usize),
    /// `]]>` (section 2.4).
    CloseMark(usize),
    /// There was too little memory, and nothing is known of the bytes.
    NoMemory,
}
