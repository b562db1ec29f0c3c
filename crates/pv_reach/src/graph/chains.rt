//! Numbers chained by a key.

ghost use Rattle.std.specs.Prelude.{◌<◌, IfSome, length};

use std::alloc::{AllocError, Global};

/// The numbers of a list of keys, chained by key: the first of each key, and the next one after
/// each number.
#[derive(Debug, Drop)]
pub struct Chains {
    first: Vec<Option<usize>>,
    next: Vec<Option<usize>>,
}

impl Chains {
    /// The chains of these keys, each in order; keys from `width` on have none.
    pub fn of(alloc: Global, keys: &[usize], width: usize) -> Result<Chains, AllocError> {
        let mut first = vec![in alloc; None; width]?;
        let mut next = vec![in alloc; None; keys.len()]?;
        for number in (0..keys.len()).rev() {
            let key = keys[number];
            if key < first.len() && number < next.len() {
                next[number] = first[key];
                first[key] = Some(number);
            }
        }
        Ok(Chains { first, next })
    }

    /// The first number of a key.
    pub fn first(&self, key: usize) -> Option<usize> {
        if key < self.first.len() {
            self.first[key]
        } else {
            None
        }
    }

    /// The next number of the same key, which is greater.
    pub fn next(&self, number: usize) -> Option<usize>
        ensures { IfSome result (λ next. (number < next) × (number < length self.now.next.items)) }
    {
        let next = self.next.get(number).copied()??;
        if number < next { Some(next) } else { None }
    }
}
