//! Where the members of a sequence lead, from each of them on.

ghost use Rattle.std.specs.Prelude.{◌≡◌, ◌≤◌, ◌<◌, ◌+◌, ◌*◌, ℕ, Some, IfOk, length, suc};
ghost use Rattle.pv_model.specs.Plain.{PlainParts};
ghost use Rattle.pv_dtd.specs.Plain.{parts_in_models};
ghost use Rattle.pv_rules.specs.Numbering.{rest_at};
ghost use Rattle.pv_productive.specs.PlainForms.{dtd_of};
ghost use Rattle.pv_reach.specs.ReachedPlaces.{AreRests, past_members, past_rest};
ghost use Rattle.pv_reach.specs.Tables.{IsTable};

use crate::tables::ends::Ends;
use pv_productive::Grammar;
use pv_rules::Membership;
use std::alloc::{AllocError, Global};

/// Where a row for each part has the place of this one.
fn rest_place(ends: &Ends, number: u32, from: u32) -> usize
    ensures { result ≡ number * suc (length ends.now.word.items) + from }
{
    number as usize * (ends.word.len() + 1) + from as usize
}

/// One past the furthest place of the members of a sequence from this one on, or 0.
pub fn rest_past(ends: &Ends, rests: &[u32], number: u32, from: u32) -> u32
    ensures { result ≡ past_rest ends.now rests.now number from }
{
    rests
        .get(rest_place(ends, number, from))
        .copied()
        .unwrap_or(0)
}

/// One past the furthest place of such members, by the rows of those after this one.
fn members_past(grammar: &Grammar, ends: &Ends, rests: &[u32], number: u32, from: u32) -> u32
    requires within { from ≤ length ends.now.word.items }
    requires names { ends.now.names ≡ length (dtd_of grammar.now).names }
    requires table { IsTable ends.now.word.items ends.now.width ends.now.table.items }
    requires rests { AreRests (dtd_of grammar.now) ends.now rests.now (suc number) }
    ensures { (ps : PlainParts) → rest_at (dtd_of grammar.now) number ≡ Some ps →
        result ≡ past_members (dtd_of grammar.now) ends.now number ps from }
{
    let Some(part) = grammar.part_of(number) else {
        return 0;
    };
    match part.membership {
        Membership::Outside => 0,
        Membership::Last => ends.part_past(number, from),
        Membership::Followed => match ends.part_past(number, from) {
            0 => 0,
            past => rest_past(ends, rests, part.end, past - 1),
        },
    }
}

/// Fills the row of a part, where those after it are filled.
fn fill_rest(grammar: &Grammar, ends: &Ends, number: u32, rests: &mut [u32])
    requires number { number < parts_in_models (dtd_of grammar.now).models }
    requires names { ends.now.names ≡ length (dtd_of grammar.now).names }
    requires table { IsTable ends.now.word.items ends.now.width ends.now.table.items }
    requires rests { AreRests (dtd_of grammar.now) ends.now rests.old (suc number) }
    ensures { AreRests (dtd_of grammar.now) ends.now rests.new number }
{
    for from in 0..ends.word.len() as u32 + 1 {
        let past = members_past(grammar, ends, rests, number, from);
        rests[rest_place(ends, number, from)] = past;
    }
}

/// A row for each part that is a member of a sequence.
pub fn rests_of(alloc: Global, grammar: &Grammar, ends: &Ends) -> Result<Vec<u32>, AllocError>
    requires names { ends.now.names ≡ length (dtd_of grammar.now).names }
    requires table { IsTable ends.now.word.items ends.now.width ends.now.table.items }
    ensures { IfOk result (λ rests. AreRests (dtd_of grammar.now) ends.now rests.items 0) }
{
    let parts = grammar.dtd().parts();
    let mut rests = vec![in alloc; 0u32; parts as usize * (ends.word.len() + 1)]?;
    for number in (0..parts).rev() {
        fill_rest(grammar, ends, number, &mut rests);
    }
    Ok(rests)
}
