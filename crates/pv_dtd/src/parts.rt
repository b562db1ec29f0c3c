//! Counts the parts of a content model.

ghost use Rattle.std.specs.Prelude.{◌≡◌, ◌^◌, ◌-◌, min};
ghost use Rattle.pv_dtd.specs.Items.{particles_in, particles_in_all, parts_of_model};
ghost use Rattle.pv_dtd.specs.NamedForms.{named_part, named_parts, named_model};

use crate::items::{SpelledModel, SpelledPart};

// The nodes of a content particle, or the greatest number where there are more.
#[cycle(nodes)]
fn particles_in(part: &SpelledPart) -> u64
    ensures { result ≡ min (particles_in (named_part part.now)) (2 ^ 64 - 1) }
{
    match part {
        SpelledPart::Name(_) => 1,
        SpelledPart::Seq(members) => particles_in_all(members.as_slice()).saturating_add(1),
        SpelledPart::Choice(members) => particles_in_all(members.as_slice()).saturating_add(1),
        SpelledPart::Opt(part) => particles_in(part).saturating_add(1),
        SpelledPart::Star(part) => particles_in(part).saturating_add(1),
        SpelledPart::Plus(part) => particles_in(part).saturating_add(1),
    }
}

#[cycle(nodes)]
fn particles_in_all(members: &[SpelledPart]) -> u64
    ensures { result ≡ min (particles_in_all (named_parts members.now)) (2 ^ 64 - 1) }
{
    let mut count: u64 = 0;
    for member in members {
        count = count.saturating_add(particles_in(member));
    }
    count
}

/// The parts of a content model, or the greatest number where there are more.
pub fn parts_of(model: &SpelledModel) -> u64
    ensures { result ≡ min (parts_of_model (named_model model.now)) (2 ^ 64 - 1) }
{
    match model {
        SpelledModel::Empty => 0,
        SpelledModel::Any => 0,
        SpelledModel::Mixed(names) => names.len() as u64,
        SpelledModel::Children(part) => particles_in(part),
    }
}
