//! Edits: the changes that a user can make.

ghost use Rattle.std.specs.Prelude.{◌≡◌, IfOk};
ghost use Rattle.pv_edit.specs.Edits.{path_named};

use pv_chars::{Bytes, List, NoMemory, bytes_of};
use pv_tree::Path;
use std::alloc::Global;

/// A change that a user can make. Places are numbers of kids, counted from 0.
///
/// The examples are lines of scripts, as the tests of test_layers read them. They are on
/// `<doc>Hello</doc>` but where another document is named.
///
/// ```rust
/// let doc = read_doc(alloc, b"<doc>Hello</doc>", b"doc")?;
/// let edit = Edit::Rename { path: Path::new(alloc, &[0])?, name: bytes_of(alloc, b"root")? };
/// assert!(rt; shape(alloc, &doc, &edit).is_ok());
/// ```
#[derive(Debug, Drop)]
pub enum Edit {
    /// Puts the kids from `from` up to but not including `to` into a new element.
    /// `wrap 0 0 1 p` gives `<doc><p>Hello</p></doc>`.
    Wrap {
        path: Path,
        from: u32,
        to: u32,
        name: Bytes,
    },
    /// Puts a new element without kids before kid `at`.
    /// `insert 0 0 p` gives `<doc><p/>Hello</doc>`.
    Insert {
        path: Path,
        at: u32,
        name: Bytes,
    },
    /// Puts an element's kids in its place.
    /// On `<doc><p>Hello</p></doc>`, `unwrap 0.0` gives `<doc>Hello</doc>`.
    Unwrap {
        path: Path,
    },
    /// Gives an element another name.
    /// `rename 0 root` gives `<root>Hello</root>`.
    Rename {
        path: Path,
        name: Bytes,
    },
    /// Cuts a text before unit `at`.
    /// `split 0.0 2` gives the texts `He` and `llo`.
    Split {
        path: Path,
        at: u32,
    },
    /// Joins a text and the text after it.
    /// With the texts `He` and `llo`, `join 0.0` gives `Hello`.
    Join {
        path: Path,
    },
    /// Gives a text other bytes.
    /// `text 0.0 Hi &amp; bye` gives `<doc>Hi &amp; bye</doc>`.
    SetText {
        path: Path,
        text: Bytes,
    },
    /// Puts a new text before kid `at`.
    /// `addtext 0 1 , you` gives `<doc>Hello, you</doc>`, with two texts.
    AddText {
        path: Path,
        at: u32,
        text: Bytes,
    },
    /// Takes a text away.
    /// `deltext 0.0` gives `<doc></doc>`.
    DelText {
        path: Path,
    },
}

impl Edit {
    /// An equal edit.
    ///
    /// ```rust
    /// let edit = Edit::Unwrap { path: Path::new(alloc, &[0, 1])? };
    /// assert!(rt; matches!(edit.copy(alloc)?, Edit::Unwrap { path }
    ///     if path.places() == [0, 1].as_slice()));
    /// ```
    pub fn copy(&self, alloc: Global) -> Result<Edit, NoMemory>
        ensures { IfOk result (λ e. e ≡ self.now) }
    {
        let path = path_of(alloc, self.path())?;
        Ok(match self {
            Edit::Wrap { from, to, name, .. } => Edit::Wrap {
                path,
                from: *from,
                to: *to,
                name: bytes_of(alloc, name.as_slice())?,
            },
            Edit::Insert { at, name, .. } => Edit::Insert {
                path,
                at: *at,
                name: bytes_of(alloc, name.as_slice())?,
            },
            Edit::Unwrap { .. } => Edit::Unwrap { path },
            Edit::Rename { name, .. } => Edit::Rename {
                path,
                name: bytes_of(alloc, name.as_slice())?,
            },
            Edit::Split { at, .. } => Edit::Split { path, at: *at },
            Edit::Join { .. } => Edit::Join { path },
            Edit::SetText { text, .. } => Edit::SetText {
                path,
                text: bytes_of(alloc, text.as_slice())?,
            },
            Edit::AddText { at, text, .. } => Edit::AddText {
                path,
                at: *at,
                text: bytes_of(alloc, text.as_slice())?,
            },
            Edit::DelText { .. } => Edit::DelText { path },
        })
    }

    // The path that it names.
    fn path(&self) -> &Path
        ensures { result.now ≡ path_named self.now }
    {
        match self {
            Edit::Wrap { path, .. } => path,
            Edit::Insert { path, .. } => path,
            Edit::Unwrap { path } => path,
            Edit::Rename { path, .. } => path,
            Edit::Split { path, .. } => path,
            Edit::Join { path } => path,
            Edit::SetText { path, .. } => path,
            Edit::AddText { path, .. } => path,
            Edit::DelText { path } => path,
        }
    }
}

/// An equal path.
pub(crate) fn path_of(alloc: Global, path: &Path) -> Result<Path, NoMemory>
    ensures { IfOk result (λ p. p ≡ path.now) }
{
    Path::new(alloc, path.places())
}

/// Edits in the order in which they were made.
///
/// ```rust
/// let edit = Edit::Unwrap { path: Path::new(alloc, &[0, 1])? };
/// let edits = Edits::of(vec![in alloc; edit]?);
/// assert!(rt; edits.as_slice().len() == 1);
/// ```
pub type Edits = List<Edit>;
