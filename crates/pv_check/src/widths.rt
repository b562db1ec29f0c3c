//! How wide the lists of a document may be.

/// How wide the lists may be that are judged.
#[derive(Clone, Copy, Debug)]
pub enum Widths {
    /// As wide as `check_doc` of `pv_fresh` judges them.
    Limited,
    /// As wide as they are.
    Any,
}
