//! Whether numbers are those of elements without attribute bytes.

ghost use Rattle.std.specs.Prelude.{◌≡◌, ◌<◌, ◌↔◌, IsTrue, Some, slice_get, true};
ghost use Rattle.std.specs.List.{AllPairs};
ghost use Rattle.pv_dtd.specs.Hedge.{Hedge};
ghost use Rattle.pv_compare.specs.Kept.{AreFlagged, AreMarks, are_plain, attributes_of};

// Whether each number is less than the next.
fn ascend(marks: &[u32]) -> bool
    ensures { IsTrue result ↔ AllPairs (λ m n. m < n) marks.now }
{
    for i in 1..marks.len() {
        if marks[i] <= marks[i - 1] {
            return false;
        }
    }
    true
}

// Whether the value at a place is true.
fn is_true_at(values: &[bool], place: u32) -> bool
    ensures { IsTrue result ↔ (slice_get values.now place ≡ Some true) }
{
    matches!(values.get(place as usize), Some(true))
}

// Whether the marks ascend, and the value at each of them is true.
fn are_flagged(marks: &[u32], values: &[bool]) -> bool
    ensures { IsTrue result ↔ AreFlagged marks.now values.now }
{
    ascend(marks) && marks.iter().all(|mark| is_true_at(values, *mark))
}

/// Whether the marks ascend, and are numbers of elements that have no attribute bytes, where of
/// each element it is known whether it has none.
pub fn are_marks(marks: &[u32], plain: &[bool]) -> bool
    ensures { (body : Hedge) → plain.now ≡ are_plain (attributes_of body) →
        IsTrue result ↔ AreMarks marks.now body }
{
    are_flagged(marks, plain)
}
