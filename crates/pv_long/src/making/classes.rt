//! Columns that stand for the same, as far as the tokens of a list can tell: the names of elements
//! that it lacks make no difference.

use pv_chars::NoMemory;
use pv_layout::Form;
use pv_model::Token;
use std::alloc::Global;

/// From how many tokens on classes are looked for. In a shorter list each column has its own.
const LEAST_TOKENS: usize = 16;

/// The classes of columns: which one each column has, a column of each, and which classes mention
/// each.
#[derive(Drop)]
pub struct Classes {
    count: usize,
    of: Vec<u32>,
    firsts: Vec<u32>,
    starts: Vec<u32>,
    above: Vec<u32>,
}

/// What a column is told apart by, so far.
#[derive(Clone, Copy, Debug)]
struct Key {
    hash: u64,
    column: u32,
}

fn number_of(count: usize) -> u32 {
    u32::try_from(count).unwrap_or(u32::MAX)
}

/// A hash with one more number.
pub fn mix_in(hash: u64, number: u32) -> u64 {
    let mixed = (hash ^ u64::from(number)).wrapping_mul(0x9e37_79b9_7f4a_7c15);
    mixed ^ (mixed >> 29)
}

// A number for a kind of form, with which others are mixed.
fn kind(number: u32) -> u64 {
    mix_in(1, number)
}

fn number_at(numbers: &[u32], place: u32) -> u32 {
    match numbers.get(place as usize) {
        Some(number) => *number,
        None => u32::MAX,
    }
}

// Notes a class, and tells whether it wasn't noted with this mark before.
fn note(seen: &mut Vec<u32>, class: u32, mark: u32) -> bool {
    match seen.get_mut(class as usize) {
        Some(old) => {
            let is_new = *old != mark;
            *old = mark;
            is_new
        }
        None => false,
    }
}

// A number for the classes of the members of a choice, in whatever order.
fn hash_of_members(members: &[u32], of: &[u32], seen: &mut Vec<u32>, mark: u32) -> u64 {
    let mut sum = kind(3);
    for member in members {
        let class = number_at(of, *member);
        if note(seen, class, mark) {
            sum = sum.wrapping_add(mix_in(kind(10), class));
        }
    }
    sum
}

// A number for what stands in a column, by the classes of the columns that it mentions.
fn hash_of(form: &Form, of: &[u32], there: &[bool], seen: &mut Vec<u32>, mark: u32) -> u64 {
    match form {
        Form::Never => kind(1),
        Form::Element(id, content) => {
            let name = match there.get(id.0 as usize) {
                Some(true) => id.0,
                _ => u32::MAX,
            };
            mix_in(mix_in(kind(2), name), number_at(of, *content))
        }
        Form::Nothing => kind(4),
        Form::OneOf(members) => hash_of_members(members.as_slice(), of, seen, mark),
        Form::Opt(one) => mix_in(kind(5), number_at(of, *one)),
        Form::Star(one, texts) => mix_in(kind(if *texts { 6 } else { 7 }), number_at(of, *one)),
        Form::Plus(one) => mix_in(kind(8), number_at(of, *one)),
        Form::Then(one, two) => mix_in(mix_in(kind(9), number_at(of, *one)), number_at(of, *two)),
    }
}

// Which names are among the tokens of a word.
fn names_there(alloc: Global, names: usize, word: &[Token]) -> Result<Vec<bool>, NoMemory> {
    let mut there = vec![in alloc; false; names]?;
    for token in word {
        if let Token::Name(id) = token {
            if let Some(is_there) = there.get_mut(id.0 as usize) {
                *is_there = true;
            }
        }
    }
    Ok(there)
}

// Gives a class to all columns with the same key, and tells how many classes there are.
fn number_keys(keys: &[Key], of: &mut Vec<u32>) -> u32 {
    let mut count = 0u32;
    let mut last = None;
    for key in keys {
        if last != Some(key.hash) {
            count = u32::saturating_add(count, 1);
            last = Some(key.hash);
        }
        if let Some(class) = of.get_mut(key.column as usize) {
            *class = u32::saturating_sub(count, 1);
        }
    }
    count
}

// Splits classes by what is mentioned, once, and tells how many there are.
fn split(
    alloc: Global,
    forms: &[Form],
    there: &[bool],
    of: &mut Vec<u32>,
) -> Result<u32, NoMemory> {
    let mut seen = vec![in alloc; u32::MAX; forms.len()]?;
    let mut keys = Vec::with_capacity(alloc, forms.len())?;
    for (place, form) in forms.iter().enumerate() {
        let column = number_of(place);
        let own = number_at(of.as_slice(), column);
        let hash = hash_of(form, of.as_slice(), there, &mut seen, column);
        keys.push(Key {
            hash: mix_in(hash, own),
            column,
        })?;
    }
    keys.sort_by_key(|key| key.hash)?;
    Ok(number_keys(keys.as_slice(), of))
}

// Numbers classes in the order of their first columns: what lies together is looked at together.
fn put_in_order(alloc: Global, of: &mut Vec<u32>, count: u32) -> Result<(), NoMemory> {
    let mut numbers = vec![in alloc; u32::MAX; count as usize]?;
    let mut next = 0u32;
    for class in of.iter_mut() {
        if let Some(number) = numbers.get_mut(*class as usize) {
            if *number == u32::MAX {
                *number = next;
                next = u32::saturating_add(next, 1);
            }
            *class = *number;
        }
    }
    Ok(())
}

// The first column of each class.
fn firsts_of(alloc: Global, of: &[u32], count: u32) -> Result<Vec<u32>, NoMemory> {
    let mut firsts = vec![in alloc; u32::MAX; count as usize]?;
    for (place, class) in of.iter().enumerate() {
        if let Some(first) = firsts.get_mut(*class as usize) {
            *first = (*first).min(number_of(place));
        }
    }
    Ok(firsts)
}

/// A class that mentions another.
#[derive(Clone, Copy, Debug)]
struct Mention {
    inner: u32,
    user: u32,
}

// Notes that a class mentions a column's, unless that is noted already.
fn note_mention(
    mentions: &mut Vec<Mention>,
    seen: &mut Vec<u32>,
    inner: u32,
    user: u32,
) -> Result<(), NoMemory> {
    if note(seen, inner, user) {
        mentions.push(Mention { inner, user })?;
    }
    Ok(())
}

// Notes which classes a form mentions.
fn mention_all(
    form: &Form,
    of: &[u32],
    mentions: &mut Vec<Mention>,
    seen: &mut Vec<u32>,
    user: u32,
) -> Result<(), NoMemory> {
    match form {
        Form::Never => Ok(()),
        Form::Nothing => Ok(()),
        Form::Element(_, one) => note_mention(mentions, seen, number_at(of, *one), user),
        Form::OneOf(members) => {
            for member in members {
                note_mention(mentions, seen, number_at(of, *member), user)?;
            }
            Ok(())
        }
        Form::Opt(one) => note_mention(mentions, seen, number_at(of, *one), user),
        Form::Star(one, _) => note_mention(mentions, seen, number_at(of, *one), user),
        Form::Plus(one) => note_mention(mentions, seen, number_at(of, *one), user),
        Form::Then(one, two) => {
            note_mention(mentions, seen, number_at(of, *one), user)?;
            note_mention(mentions, seen, number_at(of, *two), user)
        }
    }
}

// All mentions of classes in classes.
fn mentions_of(
    alloc: Global,
    forms: &[Form],
    of: &[u32],
    firsts: &[u32],
) -> Result<Vec<Mention>, NoMemory> {
    let mut seen = vec![in alloc; u32::MAX; firsts.len()]?;
    let mut mentions = Vec::new(alloc);
    for (user, first) in firsts.iter().enumerate() {
        if let Some(form) = forms.get(*first as usize) {
            mention_all(form, of, &mut mentions, &mut seen, number_of(user))?;
        }
    }
    mentions.sort_by_key(|mention| mention.inner)?;
    Ok(mentions)
}

impl Classes {
    // A class for each of so many columns.
    fn apart(alloc: Global, columns: usize) -> Classes {
        Classes {
            count: columns,
            of: Vec::new(alloc),
            firsts: Vec::new(alloc),
            starts: Vec::new(alloc),
            above: Vec::new(alloc),
        }
    }

    /// The classes of columns, in which these forms stand, for a list of this word.
    pub fn of_word(alloc: Global, forms: &[Form], word: &[Token]) -> Result<Classes, NoMemory> {
        if word.len() < LEAST_TOKENS {
            return Ok(Classes::apart(alloc, forms.len()));
        }
        let there = names_there(alloc, forms.len(), word)?;
        let mut of = vec![in alloc; 0u32; forms.len()]?;
        let mut count = 0;
        for _round in 0..forms.len() {
            let split = split(alloc, forms, there.as_slice(), &mut of)?;
            if split <= count {
                break;
            }
            count = split;
        }
        put_in_order(alloc, &mut of, count)?;
        let firsts = firsts_of(alloc, of.as_slice(), count)?;
        let mentions = mentions_of(alloc, forms, of.as_slice(), firsts.as_slice())?;
        let mut starts = Vec::with_capacity(alloc, usize::saturating_add(firsts.len(), 1))?;
        let mut above = Vec::with_capacity(alloc, mentions.len())?;
        for mention in mentions.iter() {
            for _class in starts.len()..usize::saturating_add(mention.inner as usize, 1) {
                starts.push(number_of(above.len()))?;
            }
            above.push(mention.user)?;
        }
        for _class in starts.len()..usize::saturating_add(firsts.len(), 1) {
            starts.push(number_of(above.len()))?;
        }
        Ok(Classes {
            count: firsts.len(),
            of,
            firsts,
            starts,
            above,
        })
    }

    /// Whether each column has a class of its own, with its number.
    pub fn are_apart(&self) -> bool {
        self.of.is_empty()
    }

    /// The class of each column; none where each column has its own.
    pub fn numbers(&self) -> &[u32] {
        self.of.as_slice()
    }

    /// How many classes there are.
    pub fn count(&self) -> usize {
        self.count
    }

    /// The class of a column.
    pub fn of(&self, column: u32) -> u32 {
        if self.are_apart() {
            return column;
        }
        number_at(self.of.as_slice(), column)
    }

    /// A column of a class.
    pub fn first(&self, class: u32) -> u32 {
        if self.are_apart() {
            return class;
        }
        number_at(self.firsts.as_slice(), class)
    }

    /// The classes that mention a class; none where each column has its own.
    pub fn above(&self, class: u32) -> &[u32] {
        let from = number_at(self.starts.as_slice(), class) as usize;
        let to = number_at(self.starts.as_slice(), u32::saturating_add(class, 1)) as usize;
        match self.above.get(from..to) {
            Some(above) => above,
            None => &[],
        }
    }
}
