//! The least values of many sites over each span, found once, where all are asked for the same.

ghost use Rattle.std.specs.Prelude.{◌≡◌, ℕ, IfOk, IfSome, IsTrue};
ghost use Rattle.std.specs.List.{Contains};
ghost use Rattle.pv_tables.specs.declared.tables.Entry.{Entry};
ghost use Rattle.pv_table_check.specs.Members.{AreLeast, IsNoMore};

use pv_chars::NoMemory;
use pv_tables::Entry;
use std::alloc::Global;

/// What stands where no entry does.
const NO_PLACE: usize = usize::MAX;

// Where a span stands among all spans of a word with so many places.
fn cell_of(entry: &Entry, places: usize) -> usize {
    (entry.from as usize)
        .saturating_mul(places)
        .saturating_add(entry.to as usize)
}

// Whether an entry has a lesser value than the one at a place, if there is one.
fn is_less(entries: &[Entry], place: usize, entry: &Entry) -> bool {
    match entries.get(place) {
        Some(other) => entry.value < other.value,
        None => true,
    }
}

// For each span, where the first entry of the least value stands.
fn least_places(alloc: Global, entries: &[Entry], places: usize) -> Result<Vec<usize>, NoMemory> {
    let mut cells = vec![in alloc; NO_PLACE; places.saturating_mul(places)]?;
    for (place, entry) in entries.iter().enumerate() {
        let cell = cell_of(entry, places);
        if cell < cells.len() && is_less(entries, cells[cell], entry) {
            cells[cell] = place;
        }
    }
    Ok(cells)
}

// The entries at these places, each of which becomes that where it stands now.
fn gather(alloc: Global, entries: &[Entry], cells: &mut Vec<usize>) -> Result<Vec<Entry>, NoMemory>
    ensures { IfOk result (λ found. (e : Entry) → Contains found.items e →
        Contains entries.now e) }
{
    let mut found = Vec::new(alloc);
    for cell in 0..cells.len() {
        if let Some(entry) = entries.get(cells[cell]) {
            cells[cell] = found.len();
            found.push(*entry)?;
        }
    }
    Ok(found)
}

// Whether the entry at a place has the span of another, and no greater value.
fn is_no_more_at(found: &[Entry], place: usize, entry: &Entry) -> bool
    ensures { IsTrue result → (l : Entry) × Contains found.now l × IsNoMore entry.now l }
{
    match found.get(place) {
        Some(least) => {
            least.from == entry.from && least.to == entry.to && least.value <= entry.value
        }
        None => false,
    }
}

// Puts each entry that has none of the others with its span and no greater value with those.
fn put_others(
    entries: &[Entry],
    cells: &[usize],
    places: usize,
    found: &mut Vec<Entry>,
) -> Result<(), NoMemory>
    requires { (e : Entry) → Contains found.old.items e → Contains entries.now e }
    ensures { IfOk result (λ _. AreLeast entries.now found.new.items) }
{
    for entry in entries {
        let cell = cell_of(entry, places);
        let place = if cell < cells.len() {
            cells[cell]
        } else {
            NO_PLACE
        };
        if !is_no_more_at(found.as_slice(), place, entry) {
            found.push(*entry)?;
        }
    }
    Ok(())
}

fn least_entries(alloc: Global, entries: &[Entry], places: usize) -> Result<Vec<Entry>, NoMemory>
    ensures { IfOk result (λ found. AreLeast entries.now found.items) }
{
    let mut cells = least_places(alloc, entries, places)?;
    let mut found = gather(alloc, entries, &mut cells)?;
    put_others(entries, &cells, places, &mut found)?;
    Ok(found)
}

/// Of entries over a word of so many tokens, one of the least value for each span; none where that
/// aren't much fewer, or where there is no memory for it.
pub fn least_of(alloc: Global, entries: &[Entry], tokens: usize) -> Option<Vec<Entry>>
    ensures { IfSome result (λ found. AreLeast entries.now found.items) }
{
    let places = tokens.saturating_add(1);
    if entries.len() / 2 < places.saturating_mul(places) {
        return None;
    }
    least_entries(alloc, entries, places).ok()
}
