//! Events.

/// What begins, ends or stands at a place of a document's root.
#[derive(Clone, Copy)]
pub enum Event<'a> {
    /// An element begins; the bytes between its name and `>` or `/>`.
    Start { name: &'a [u8], attrs: &'a [u8] },
    /// An element ends.
    Stop,
    /// A text run.
    Text(&'a [u8]),
    /// A CDATA section, with its marks.
    Cdata(&'a [u8]),
    /// A comment or a processing instruction.
    Misc(&'a [u8]),
}
