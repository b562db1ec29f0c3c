//! The modes in which a text is read.

/// How a text is read.
#[derive(Clone, Copy, Debug)]
pub enum TextMode {
    /// The file, read as Between; whether a parameter declaration stands in it before the rest.
    File(bool),
    /// Between declarations.
    Between,
    /// Inside another declaration.
    Inside,
    /// As the value of an entity.
    Value,
}
