//! What columns over tokens are built of by fronts alone: of parts that together cost no more.

use crate::making::goals::{Parts, Span, Wanted};
use pv_bounds::Fronts;
use pv_layout::Form;
use pv_model::{NameId, Token};
use pv_rules::HEAVIEST;
use pv_write::Piece;

/// What stands in columns, and what fronts tell of them over a word.
#[derive(Clone, Copy)]
pub struct Told<'a> {
    pub forms: &'a [Form],
    pub fronts: &'a Fronts,
    pub word: &'a [Token],
}

impl<'a> Told<'a> {
    // What a column costs at least over the tokens from one number up to another.
    fn cost(&self, column: u32, from: u32, to: u32) -> u32 {
        self.fronts.at(column, from).cost_to(to)
    }

    // A column over the tokens of a span, where it costs no more than so much.
    fn over(&self, column: u32, span: Span, most: u32) -> Option<Wanted> {
        if self.cost(column, span.from, span.to) > most {
            return None;
        }
        Some(Wanted::Tokens(Span {
            column,
            number: most,
            ..span
        }))
    }

    // Whether a span is the element of this name.
    fn is_there(&self, id: NameId, span: Span) -> bool {
        span.to == u32::saturating_add(span.from, 1)
            && self.word.get(span.from as usize) == Some(&Token::Name(id))
    }

    // What an element is built of: itself, or its content within new tags.
    fn parts_of_element(&self, id: NameId, content: u32, span: Span) -> Option<Parts> {
        if self.is_there(id, span) {
            return Some(Parts::piece(Piece::Kept));
        }
        let most = u32::checked_sub(span.number, 1)?;
        Some(Parts::element(id, self.over(content, span, most)?))
    }

    // What one of some columns is built of: the cheapest.
    fn parts_of_choice(&self, members: &[u32], span: Span) -> Option<Parts> {
        let mut least = HEAVIEST;
        let mut found = None;
        for member in members {
            let cost = self.cost(*member, span.from, span.to);
            if cost < least {
                least = cost;
                found = Some(*member);
            }
        }
        Some(Parts::one(self.over(found?, span, span.number)?))
    }

    // What begins with a text is built of: this and the same column after it.
    fn parts_after_text(&self, span: Span) -> Option<Parts> {
        if self.word.get(span.from as usize) != Some(&Token::Text) {
            return None;
        }
        let rest = Span {
            from: u32::saturating_add(span.from, 1),
            ..span
        };
        if rest.from >= rest.to {
            return Some(Parts::piece(Piece::Kept));
        }
        Some(Parts {
            piece: Some(Piece::Kept),
            first: Some(self.over(span.column, rest, span.number)?),
            second: None,
        })
    }

    // What one column, and another after it, are built of where each has tokens: the first one up
    // to one of the ends that it reaches.
    fn parts_at_cut(&self, one: u32, two: u32, span: Span) -> Option<Parts> {
        let firsts = self.fronts.at(one, span.from);
        for index in 0..firsts.len() {
            let reach = firsts.get(index);
            let left = u32::checked_sub(span.number, reach.cost)?;
            if reach.end >= span.to {
                return None;
            }
            let rest = Span {
                from: reach.end,
                ..span
            };
            if let Some(rest) = self.over(two, rest, left) {
                let first = Span {
                    column: one,
                    number: reach.cost,
                    from: span.from,
                    to: reach.end,
                };
                return Some(Parts::two(Wanted::Tokens(first), rest));
            }
        }
        None
    }

    // What any number of a column is built of, or one or more: of one, or of one and others after
    // it.
    fn parts_of_many(&self, one: u32, span: Span) -> Option<Parts> {
        match self.over(one, span, span.number) {
            Some(alone) => Some(Parts::one(alone)),
            None => self.parts_at_cut(one, span.column, span),
        }
    }

    // What a sequence of two columns is built of.
    fn parts_of_both(&self, one: u32, two: u32, span: Span) -> Option<Parts> {
        if let Some(most) = u32::checked_sub(span.number, self.fronts.empty_at(two)) {
            if let Some(first) = self.over(one, span, most) {
                return Some(Parts::two(first, Wanted::Empty(two)));
            }
        }
        if let Some(most) = u32::checked_sub(span.number, self.fronts.empty_at(one)) {
            if let Some(second) = self.over(two, span, most) {
                return Some(Parts::two(Wanted::Empty(one), second));
            }
        }
        self.parts_at_cut(one, two, span)
    }

    /// What a column over some tokens is built of, within the number of the span.
    pub fn parts_of(&self, span: Span) -> Option<Parts> {
        match self.forms.get(span.column as usize)? {
            Form::Never => None,
            Form::Nothing => None,
            Form::Element(id, content) => self.parts_of_element(*id, *content, span),
            Form::OneOf(members) => self.parts_of_choice(members.as_slice(), span),
            Form::Opt(one) => Some(Parts::one(self.over(*one, span, span.number)?)),
            Form::Star(one, texts) => {
                let after = if *texts {
                    self.parts_after_text(span)
                } else {
                    None
                };
                match after {
                    Some(parts) => Some(parts),
                    None => self.parts_of_many(*one, span),
                }
            }
            Form::Plus(one) => self.parts_of_many(*one, span),
            Form::Then(one, two) => self.parts_of_both(*one, *two, span),
        }
    }
}
