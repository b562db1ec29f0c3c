//! Paths, which say where nodes and lists stand in a document.

ghost use Rattle.std.specs.Prelude.{◌≡◌, IfOk};

use pv_chars::NoMemory;
use std::alloc::Global;
use std::marker::Model;

/// A place, seen as the list of the numbers of the kids that lead to it from the document node.
///
/// The empty path is the document node, `[0]` the root, and `[0, 2]` the root's third child node.
///
/// ```rust
/// let path = Path::new(alloc, &[0, 2])?; // test_rows: keeps_places
/// assert!(rt; path.places() == [0, 2].as_slice());
/// ```
#[derive(Debug, Drop)]
pub struct Path {
    places: Vec<u32>,
}

impl Model for Path {
    ghost use Rattle.std.specs.Prelude.{List, ℕ};

    ghost Value = { List ℕ };

    ghost view = { λ p. p.places.items };
}

impl Path {
    /// The path of these numbers, from the document node down. Each is the number of a kid in its
    /// list, counted from 0.
    ///
    /// ```rust
    /// assert!(rt; Path::new(alloc, &[])?.places().is_empty()); // the document node
    /// ```
    pub fn new(alloc: Global, places: &[u32]) -> Result<Path, NoMemory>
        ensures { IfOk result (λ p. p ≡ places.now) }
    {
        Ok(Path {
            places: places.to_vec(alloc)?,
        })
    }

    /// The numbers, from the document node down.
    ///
    /// ```rust
    /// let path = Path::new(alloc, &[0, 2])?;
    /// assert!(rt; path.places().len() == 2 && path.places()[1] == 2);
    /// ```
    pub fn places(&self) -> &[u32]
        ensures { result.now ≡ self.now }
    {
        self.places.as_slice()
    }
}
