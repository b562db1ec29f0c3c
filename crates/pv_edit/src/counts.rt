//! How many nodes an edit makes and removes.

ghost use Rattle.std.specs.Prelude.{◌≡◌};
ghost use Rattle.pv_edit.specs.Counts.{nodes_made, nodes_taken};

use crate::edits::Edit;

impl Edit {
    /// How many nodes a document gets by it.
    ///
    /// ```rust
    /// let edit = Edit::Join { path: Path::new(alloc, &[0, 0])? };
    /// assert!(rt; edit.nodes_made() == 0);
    /// ```
    pub fn nodes_made(&self) -> u64
        ensures { result ≡ nodes_made self.now }
    {
        match self {
            Edit::Wrap { .. } | Edit::Insert { .. } | Edit::Split { .. } | Edit::AddText { .. } =>
                1,
            Edit::Unwrap { .. }
            | Edit::Rename { .. }
            | Edit::Join { .. }
            | Edit::SetText { .. }
            | Edit::DelText { .. } => 0,
        }
    }

    /// How many nodes a document loses by it.
    ///
    /// ```rust
    /// let edit = Edit::Join { path: Path::new(alloc, &[0, 0])? };
    /// assert!(rt; edit.nodes_taken() == 1);
    /// ```
    pub fn nodes_taken(&self) -> u64
        ensures { result ≡ nodes_taken self.now }
    {
        match self {
            Edit::Unwrap { .. } | Edit::Join { .. } | Edit::DelText { .. } => 1,
            Edit::Wrap { .. }
            | Edit::Insert { .. }
            | Edit::Rename { .. }
            | Edit::Split { .. }
            | Edit::SetText { .. }
            | Edit::AddText { .. } => 0,
        }
    }
}
