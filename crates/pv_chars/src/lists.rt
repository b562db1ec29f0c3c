//! Values, numbers, names and bytes in order.

ghost use Rattle.std.specs.Prelude.{◌≡◌, IfOk};

use crate::NoMemory;
use std::alloc::Global;
use std::marker::Model;

/// Values in order, seen as their list.
///
/// ```rust
/// let numbers = Numbers::of([1, 2].to_vec(alloc)?); // test_layers: lists
/// assert!(rt; numbers.as_slice() == [1, 2].as_slice());
/// ```
#[derive(Debug, Drop)]
pub struct List<T> {
    items: Vec<T>,
}

impl<T> Model for List<T> {
    ghost use Rattle.std.specs.Prelude.{List};

    ghost Value = { List T };

    ghost view = { λ l. l.items.items };
}

impl<T> List<T> {
    /// The values of a vector, in its order; they aren't copied.
    ///
    /// ```rust
    /// let numbers = Numbers::of([2, 1].to_vec(alloc)?);
    /// assert!(rt; numbers.as_slice()[0] == 2);
    /// ```
    pub fn of(items: Vec<T>) -> List<T>
        ensures { result ≡ items.items }
    {
        List { items }
    }

    /// The values in order.
    ///
    /// ```rust
    /// assert!(rt; bytes_of(alloc, b"em")?.as_slice() == b"em".as_slice());
    /// ```
    pub fn as_slice(&self) -> &[T]
        ensures { result.now ≡ self.now }
    {
        self.items.as_slice()
    }
}

/// Bytes in order: a name, a text, or any other part of a document.
///
/// ```rust
/// let name: Bytes = bytes_of(alloc, b"em")?;
/// assert!(rt; name.as_slice().len() == 2);
/// ```
pub type Bytes = List<u8>;

/// Numbers in order, as the marks of a completion.
///
/// ```rust
/// let marks: Numbers = Numbers::of([1, 4].to_vec(alloc)?);
/// assert!(rt; marks.as_slice().len() == 2);
/// ```
pub type Numbers = List<u32>;

/// Names in order, each as its bytes.
///
/// ```rust
/// // test_layers: labels
/// let labels = Labels::of(vec![in alloc; bytes_of(alloc, b"em")?]?);
/// assert!(rt; labels.as_slice()[0].as_slice() == b"em".as_slice());
/// ```
pub type Labels = List<Bytes>;

/// A copy of the bytes.
///
/// ```rust
/// assert!(rt; bytes_of(alloc, b"xyz")?.as_slice() == b"xyz".as_slice()); // test_layers: lists
/// ```
pub fn bytes_of(alloc: Global, bytes: &[u8]) -> Result<Bytes, NoMemory>
    ensures { IfOk result (λ b. b ≡ bytes.now) }
{
    Ok(List::of(bytes.to_vec(alloc)?))
}
