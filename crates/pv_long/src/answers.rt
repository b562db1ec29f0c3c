//! What is told of the elements that are missing in a document.

/// A completion of a document.
#[derive(Debug, Drop)]
pub struct Completion {
    /// How many elements are new.
    pub count: u32,
    /// Their numbers in the body, in document order, the root having the number 0.
    pub marks: Vec<u32>,
    /// The text of the completed document.
    pub body: Vec<u8>,
}

/// How many elements are missing in a document, with a completion of it.
#[derive(Debug, Drop)]
pub enum Missing {
    /// As many as this completion inserts: no other one inserts fewer.
    Exactly(Completion),
    /// At least so many, and at most as many as this completion inserts, which are more.
    Between(u32, Completion),
}
