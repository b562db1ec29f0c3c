//! Sizes of elements, of parts, and of the members of sequences, as found so far.

ghost use Rattle.std.specs.Prelude.{◌≡◌, ◌<◌, length};
ghost use Rattle.pv_productive.specs.Tables.{IsLowered, capped, size_at};

use crate::layout::Layout;
use pv_chars::NoMemory;
use pv_rules::{HEAVIEST, Site};
use std::alloc::Global;

/// The size of what has no good element, as far as is known; more than a rule adds up from sizes
/// that are cut.
pub const NO_SIZE: u32 = 4_000_000;

/// The least numbers of elements found so far: in an element of each name, itself included, in each
/// part, and in the members of a sequence from each part on.
#[derive(Debug, Drop)]
pub struct Sizes {
    pub names: Vec<u32>,
    pub parts: Vec<u32>,
    pub rests: Vec<u32>,
}

/// A sum of sizes, cut.
pub fn cut(sum: u64) -> u32
    ensures { result ≡ capped sum }
{
    if sum >= u64::from(NO_SIZE) {
        NO_SIZE
    } else if sum < u64::from(HEAVIEST) {
        sum as u32
    } else {
        HEAVIEST
    }
}

impl Sizes {
    ghost use Rattle.std.specs.Prelude.{◌≡◌, IfOk};
    ghost use Rattle.pv_dtd.specs.PlainForms.{plain_dtd};
    ghost use Rattle.pv_productive.specs.PlainForms.{table_of};
    ghost use Rattle.pv_productive.specs.Tables.{IsAttained, size_at};

    /// Nothing is known.
    pub fn new(alloc: Global, layout: &Layout) -> Result<Sizes, NoMemory>
        ensures { IfOk result (λ sizes. IsAttained (plain_dtd layout.now.dtd) (table_of sizes)) }
    {
        let parts = layout.dtd().parts() as usize;
        Ok(Sizes {
            names: vec![in alloc; NO_SIZE; layout.dtd().names() as usize]?,
            parts: vec![in alloc; NO_SIZE; parts]?,
            rests: vec![in alloc; NO_SIZE; parts]?,
        })
    }

    /// The size of an element of a name.
    pub fn of_name(&self, name: u32) -> u32
        ensures { result ≡ size_at self.now.names.items name }
    {
        size_at(self.names.as_slice(), name)
    }

    /// The size of a part.
    pub fn of_part(&self, number: u32) -> u32
        ensures { result ≡ size_at self.now.parts.items number }
    {
        size_at(self.parts.as_slice(), number)
    }

    /// The size of the members of a sequence from this one on.
    pub fn of_rest(&self, number: u32) -> u32
        ensures { result ≡ size_at self.now.rests.items number }
    {
        size_at(self.rests.as_slice(), number)
    }

    /// The size of a site; that of a content stands nowhere.
    pub fn of_site(&self, site: Site) -> u32 {
        match site {
            Site::Name(id) => self.of_name(id.0),
            Site::Content(_) => NO_SIZE,
            Site::Part(number) => self.of_part(number),
            Site::Rest(number) => self.of_rest(number),
        }
    }
}

/// The size at a number.
pub fn size_at(sizes: &[u32], number: u32) -> u32
    ensures { result ≡ size_at sizes.now number }
{
    sizes.get(number as usize).copied().unwrap_or(NO_SIZE)
}

/// Puts in the size at a number where it is less than what stands there, and tells whether it was.
pub fn lower(sizes: &mut Vec<u32>, number: u32, size: u32) -> bool
    requires { number < length sizes.old.items }
    ensures { IsLowered sizes.old.items sizes.new.items number size result }
{
    let is_less = size < sizes[number as usize];
    if is_less {
        sizes[number as usize] = size;
    }
    is_less
}
