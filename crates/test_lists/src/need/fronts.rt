//! Columns of a grammar, fronts over a word of them, whether they are closed, and their bounds.

use crate::calls::grammar_of;
use pv_bounds::laws::below_sites_law;
use pv_bounds::{Far, Fronts, Reach, Row, are_closed, bound};
use pv_chars::NoMemory;
use pv_layout::laws::columns_derive_law;
use pv_layout::{ColumnLayout, Form, lay_out};
use pv_model::{NameId, Token};
use pv_rules::Site;
use pv_tree::Mark;
use std::alloc::Global;
use std::test::Fail;

// An element that needs another one.
const PAIR: &str = "<!ELEMENT a (b)><!ELEMENT b EMPTY>";

// The element that is needed.
static WORD: [Token; 1] = [Token::Name(NameId(1))];

// Sites, their columns, and what they cost at least over the word.
static SITES: [(Site, u32, u32); 6] = [
    (Site::Name(NameId(0)), 0, 1),
    (Site::Name(NameId(1)), 1, 0),
    (Site::Content(NameId(0)), 1, 0),
    (Site::Content(NameId(1)), 3, 1_000_001),
    (Site::Part(0), 1, 0),
    (Site::Rest(0), 2, 1_000_001),
];

// What the columns cost over no tokens.
static EMPTY: [u32; 4] = [2, 1, 1_000_001, 0];

fn reach(cost: u32) -> Reach {
    Reach {
        cost,
        end: 1,
        via: 0,
    }
}

// The fronts over the word: the element round it reaches its end at this cost, and the element
// itself at none.
fn fronts_over(alloc: Global, cost: u32) -> Result<Fronts, NoMemory> {
    let mut rows = Vec::new(alloc);
    rows.push(Row {
        starts: Vec::from_slice(alloc, &[0, 1, 2, 2, 2])?,
        reaches: Vec::from_slice(alloc, &[reach(cost), reach(0)])?,
        fars: Vec::new(alloc),
    })?;
    Ok(Fronts {
        empty: Vec::from_slice(alloc, &EMPTY)?,
        classes: Vec::new(alloc),
        rows,
        ends: Vec::new(alloc),
    })
}

// Fronts of two columns of one class, which go on from their own reach to the last two of these
// ends.
fn shared_fronts(alloc: Global) -> Result<Fronts, NoMemory> {
    let far = Far {
        from: 1,
        to: 3,
        cost: 5,
    };
    let mut rows = Vec::new(alloc);
    rows.push(Row {
        starts: Vec::from_slice(alloc, &[0, 1])?,
        reaches: Vec::from_slice(alloc, &[reach(0)])?,
        fars: Vec::from_slice(alloc, &[far])?,
    })?;
    Ok(Fronts {
        empty: Vec::new(alloc),
        classes: Vec::from_slice(alloc, &[0, 0])?,
        rows,
        ends: Vec::from_slice(alloc, &[9, 2, 4])?,
    })
}

fn are_forms(forms: &[Form]) -> bool {
    matches!(
        forms,
        [
            Form::Element(NameId(0), 1),
            Form::Element(NameId(1), 3),
            Form::Never,
            Form::Nothing
        ]
    )
}

fn has_forms(alloc: Global) -> Result<bool, Fail> {
    let grammar = grammar_of(alloc, PAIR)?;
    Ok(are_forms(lay_out(alloc, &grammar)?.forms()))
}

// The column of a site, and what it costs at least over the word.
fn found_of(alloc: Global, layout: &ColumnLayout<'_>, site: Site) -> Result<(u32, u32), Fail> {
    let fronts = fronts_over(alloc, 1)?;
    Ok((layout.column(site), bound(layout, &fronts, site, 1)))
}

fn column_and_bound(alloc: Global, site: Site) -> Result<(u32, u32), Fail> {
    let grammar = grammar_of(alloc, PAIR)?;
    let layout = lay_out(alloc, &grammar)?;
    found_of(alloc, &layout, site)
}

#[test]
fn columns_and_bounds(rt: HostRuntime) -> Result<(), Fail> {
    assert!(rt; has_forms(rt.alloc())?);
    for (site, column, least) in &SITES {
        let found = column_and_bound(rt.alloc(), *site)?;
        assert_eq!(rt; found, (*column, *least), "{site:?}");
    }
    Ok(())
}

fn are_closed_over(alloc: Global, layout: &ColumnLayout<'_>, cost: u32) -> Result<bool, NoMemory> {
    columns_derive_law();
    below_sites_law::<Mark>();
    let fronts = fronts_over(alloc, cost)?;
    are_closed(alloc, layout, &WORD, &fronts)
}

// Whether the fronts are closed where the element round the word costs so much.
fn are_closed_at(alloc: Global, cost: u32) -> Result<bool, Fail> {
    let grammar = grammar_of(alloc, PAIR)?;
    let layout = lay_out(alloc, &grammar)?;
    Ok(are_closed_over(alloc, &layout, cost)?)
}

#[test]
fn closed_fronts(rt: HostRuntime) -> Result<(), Fail> {
    assert!(rt; are_closed_at(rt.alloc(), 0)?, "less than the least");
    assert!(rt; are_closed_at(rt.alloc(), 1)?, "the least");
    assert!(rt; !are_closed_at(rt.alloc(), 2)?, "more than the least");
    Ok(())
}

// Columns, spans of the word, and what each column costs over them.
static COSTS: [(u32, u32, u32, u32); 7] = [
    (0, 0, 1, 7),
    (1, 0, 1, 0),
    (2, 0, 1, 1_000_001),
    (0, 0, 2, 1_000_001),
    (0, 1, 2, 1_000_001),
    (0, 0, 0, 2),
    (4, 1, 1, 1_000_001),
];

fn cost_over(alloc: Global, column: u32, from: u32, to: u32) -> Result<u32, Fail> {
    Ok(fronts_over(alloc, 7)?.cost(column, from, to))
}

// Whether both a row and its fronts have these reaches of a column.
fn are_reaches(fronts: &Fronts, column: u32, reaches: &[Reach]) -> bool {
    match fronts.rows.get(0) {
        Some(row) => row.at(column) == reaches && fronts.at(column, 0).near == reaches,
        None => false,
    }
}

fn has_reaches(alloc: Global) -> Result<bool, Fail> {
    let fronts = fronts_over(alloc, 7)?;
    Ok(
        are_reaches(&fronts, 0, &[reach(7)])
            && are_reaches(&fronts, 1, &[reach(0)])
            && are_reaches(&fronts, 2, &[])
            && are_reaches(&fronts, 4, &[])
            && fronts.at(0, 1).len() == 0,
    )
}

fn empty_of(alloc: Global, column: u32) -> Result<u32, Fail> {
    Ok(fronts_over(alloc, 7)?.empty_at(column))
}

#[test]
fn costs(rt: HostRuntime) -> Result<(), Fail> {
    assert!(rt; has_reaches(rt.alloc())?);
    assert_eq!(rt; empty_of(rt.alloc(), 0)?, 2);
    assert_eq!(rt; empty_of(rt.alloc(), 4)?, 1_000_001);
    for (column, from, to, wanted) in &COSTS {
        let found = cost_over(rt.alloc(), *column, *from, *to)?;
        assert_eq!(rt; found, *wanted, "{column} from {from} up to {to}");
    }
    Ok(())
}

// Columns, how far they are to reach, and what that costs where they share ends.
static SHARED: [(u32, u32, u32); 7] = [
    (0, 1, 0),
    (0, 2, 5),
    (0, 3, 6),
    (0, 4, 6),
    (0, 5, 1_000_001),
    (1, 2, 5),
    (2, 1, 1_000_001),
];

fn shared_cost(alloc: Global, column: u32, to: u32) -> Result<u32, Fail> {
    Ok(shared_fronts(alloc)?.cost(column, 0, to))
}

// The second reach of a front that shares ends.
fn second_reach(alloc: Global) -> Result<Option<Reach>, Fail> {
    let fronts = shared_fronts(alloc)?;
    let front = fronts.at(1, 0);
    if front.len() == 3 {
        Ok(Some(front.get(1)))
    } else {
        Ok(None)
    }
}

#[test]
fn shared_ends(rt: HostRuntime) -> Result<(), Fail> {
    for (column, to, wanted) in &SHARED {
        let found = shared_cost(rt.alloc(), *column, *to)?;
        assert_eq!(rt; found, *wanted, "{column} up to {to}");
    }
    let wanted = Reach {
        cost: 5,
        end: 2,
        via: 0,
    };
    assert_eq!(rt; second_reach(rt.alloc())?, Some(wanted));
    Ok(())
}
