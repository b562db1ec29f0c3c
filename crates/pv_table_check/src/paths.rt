//! The order of the paths of tables.

ghost use Rattle.std.specs.Prelude.{◌≡◌, ◌<◌, ◌-◌, ◌↔◌, IsTrue, Some, length, slice_get};
ghost use Rattle.std.specs.List.{AllPairs};
ghost use Rattle.pv_tree.specs.PathOrder.{IsPathBefore};
ghost use Rattle.pv_tables.specs.declared.tables.Table.{Table};

use pv_tables::Table;

// Whether a path is before another in document order.
fn is_before(one: &[u32], other: &[u32]) -> bool
    ensures { IsTrue result ↔ IsPathBefore one.now other.now }
{
    for (place, step) in one.iter().enumerate() {
        let Some(next) = other.get(place) else {
            return false;
        };
        if step != next {
            return step < next;
        }
    }
    one.len() < other.len()
}

// Whether the path of the table at a place is before that of the next one.
fn ascends_at(tables: &[Table], place: usize) -> bool
    requires { (0 < place) × (place < length tables.now) }
    ensures { (t : Table) → (u : Table) → slice_get tables.now (place - 1) ≡ Some t →
        slice_get tables.now place ≡ Some u → IsTrue result ↔ IsPathBefore t.path u.path }
{
    let one = &tables[place - 1];
    let other = &tables[place];
    is_before(one.path.places(), other.path.places())
}

/// Whether the paths of tables ascend strictly in document order.
pub fn paths_ascend(tables: &[Table]) -> bool
    ensures { IsTrue result ↔ AllPairs (λ (t : Table) (u : Table). IsPathBefore t.path u.path)
        tables.now }
{
    for place in 1..tables.len() {
        if !ascends_at(tables, place) {
            return false;
        }
    }
    true
}
