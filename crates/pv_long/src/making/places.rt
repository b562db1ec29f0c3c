//! The fronts at one place of a list.

use crate::making::classes::Classes;
use crate::making::derivations::{Derivations, Rule};
use crate::making::here::Here;
use crate::making::spreading::{Known, settle, try_lacking};
use pv_bounds::Row;
use pv_chars::NoMemory;
use pv_layout::Form;
use pv_model::Token;
use pv_rules::Site;
use std::alloc::Global;

fn number_of(count: usize) -> u32 {
    u32::try_from(count).unwrap_or(u32::MAX)
}

// Offers a text to the classes in which texts stand.
fn offer_text(known: Known<'_>, here: &mut Here, end: u32) -> Result<(), NoMemory> {
    for class in 0..known.classes.count() {
        let class = number_of(class);
        let Some(Form::Star(_, true)) = known.form(class) else {
            continue;
        };
        here.offer(known.alloc, class, 0, end, Rule::Token)?;
        for next in known.reaches(end, class) {
            let rule = Rule::Text { rest: next.via };
            here.offer(known.alloc, class, next.cost, next.end, rule)?;
        }
    }
    Ok(())
}

// Offers a token to the classes in which it stands.
fn offer_token(known: Known<'_>, here: &mut Here, token: Token) -> Result<(), NoMemory> {
    let end = u32::saturating_add(here.place, 1);
    match token {
        Token::Name(id) => {
            let class = known.classes.of(known.known.layout.column(Site::Name(id)));
            here.offer(known.alloc, class, 0, end, Rule::Token)
        }
        Token::Text => offer_text(known, here, end),
        Token::Other => Ok(()),
    }
}

/// Makes the fronts at a place. Each time fewer classes are left of which not all cuts are tried.
pub fn fill_place(
    known: Known<'_>,
    here: &mut Here,
    derivations: &mut Derivations,
    token: Token,
) -> Result<(), NoMemory> {
    let before = derivations.count();
    let mut left = here.partly_tried();
    'times: loop {
        offer_token(known, here, token)?;
        settle(known, here, derivations)?;
        if here.grain.may_lack() {
            return Ok(());
        }
        try_lacking(known, here);
        let fewer = here.partly_tried();
        if fewer >= left {
            return Ok(());
        }
        left = fewer;
        here.clear();
        derivations.keep(before);
    }
}

/// The row of the place at hand, by class.
pub fn row_of(alloc: Global, here: &Here, classes: &Classes) -> Result<Row, NoMemory> {
    let mut count = 0usize;
    for class in 0..classes.count() {
        count = usize::saturating_add(count, here.front(number_of(class)).len());
    }
    let mut starts = Vec::with_capacity(alloc, usize::saturating_add(classes.count(), 1))?;
    let mut reaches = Vec::with_capacity(alloc, count)?;
    for class in 0..classes.count() {
        starts.push(number_of(reaches.len()))?;
        reaches.extend_from_slice(here.front(number_of(class)))?;
    }
    starts.push(number_of(reaches.len()))?;
    Ok(Row {
        starts,
        reaches,
        fars: Vec::new(alloc),
    })
}
