//! Where the row of each site stands among rows.

use pv_productive::Grammar;
use pv_rules::Site;
use std::alloc::{AllocError, Global};

/// For each name and part one more than the number of the row of each of its sites, or 0.
#[derive(Debug, Drop)]
pub struct Index {
    names: Vec<usize>,
    contents: Vec<usize>,
    parts: Vec<usize>,
    rests: Vec<usize>,
}

impl Index {
    ghost use Rattle.std.specs.Prelude.{◌≡◌, ◌≢◌, IfOk};
    ghost use Rattle.pv_rules.specs.PlainForms.{plain_site};
    ghost use Rattle.pv_rules.specs.Sites.{PlainSite};
    ghost use Rattle.pv_productive.specs.PlainForms.{dtd_of};
    ghost use Rattle.pv_denial.specs.Indexes.{HasPlaceFor, HasPlaceForEach, slot};

    /// No row yet, with room for the sites of so many names and parts.
    pub fn new(alloc: Global, grammar: &Grammar) -> Result<Index, AllocError>
        ensures none { IfOk result (λ ix. (s : PlainSite) → slot ix s ≡ 0) }
        ensures room { IfOk result (λ ix. HasPlaceForEach (dtd_of grammar.now) ix) }
    {
        let names = grammar.dtd().names() as usize;
        let parts = grammar.dtd().parts() as usize;
        let by_name = vec![in alloc; 0usize; names]?;
        let by_content = vec![in alloc; 0usize; names]?;
        let by_part = vec![in alloc; 0usize; parts]?;
        let by_rest = vec![in alloc; 0usize; parts]?;
        Ok(Index {
            names: by_name,
            contents: by_content,
            parts: by_part,
            rests: by_rest,
        })
    }

    /// What it has for a site.
    pub fn get(&self, site: Site) -> usize
        ensures { result ≡ slot self.now (plain_site site) }
    {
        match site {
            Site::Name(id) => self.names.get(id.0 as usize).copied().unwrap_or(0),
            Site::Content(id) => self.contents.get(id.0 as usize).copied().unwrap_or(0),
            Site::Part(number) => self.parts.get(number as usize).copied().unwrap_or(0),
            Site::Rest(number) => self.rests.get(number as usize).copied().unwrap_or(0),
        }
    }

    /// Has a number for a site from now on.
    pub fn put(&mut self, site: Site, number: usize)
        requires { HasPlaceFor self.old (plain_site site) }
        ensures here { slot self.new (plain_site site) ≡ number }
        ensures others { (s : PlainSite) → s ≢ plain_site site → slot self.new s ≡ slot self.old s }
        ensures room { (s : PlainSite) → HasPlaceFor self.old s → HasPlaceFor self.new s }
    {
        match site {
            Site::Name(id) => self.names[id.0 as usize] = number,
            Site::Content(id) => self.contents[id.0 as usize] = number,
            Site::Part(part) => self.parts[part as usize] = number,
            Site::Rest(part) => self.rests[part as usize] = number,
        }
    }
}
