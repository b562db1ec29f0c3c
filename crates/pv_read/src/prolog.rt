//! What stands before the root element (XML 1.0, section 2.8).

ghost use Rattle.std.specs.Prelude.{◌≢◌, ◌<◌, ◌^◌, ℕ, List, length, IfOk, IfErr};
ghost use Rattle.pv_tree.specs.Marks.{blank_mark};
ghost use Rattle.pv_read.specs.Left.{in_prolog, at_front};
ghost use Rattle.pv_read.specs.Meaning.{DocumentRestMeans};
ghost use Rattle.pv_read.specs.Errors.{Refuses};
ghost use Rattle.pv_read.specs.Prologs.{OpensRoot};

use crate::errors::DocError;
use crate::faults::next_item;
use crate::forms::{Item, Tag};
use crate::places::{Place, PrologStage};

/// The tag that opens the root.
#[derive(Clone, Copy)]
pub struct RootTag<'a> {
    /// What stands from the tag on.
    pub from_tag: &'a [u8],
    pub tag: Tag<'a>,
    /// Whether it is an empty-element tag.
    pub is_short: bool,
    /// What stands after the tag.
    pub rest: &'a [u8],
    /// The number of items before the tag.
    pub count: u64,
}

/// The tag that opens the root of a text, which begins after the byte order mark. Elements stand
/// at most so deep, or at any depth.
pub fn root_tag<'a>(
    most_depth: Option<usize>,
    root: &[u8],
    text: &'a [u8],
) -> Result<RootTag<'a>, DocError>
    requires { length text.now < 2 ^ 64 }
    ensures opens { IfOk result (λ r. OpensRoot most_depth root.now text.now r) }
    ensures refused { IfErr result (λ e. (mark : List ℕ) →
        Refuses (DocumentRestMeans most_depth blank_mark root.now 0 (in_prolog at_front mark)
        text.now) e) }
    ensures no_want { IfErr result (λ e. e ≢ DocError.NoMemory) }
{
    let mut stage = PrologStage::AtFront;
    let mut rest = text;
    let mut count: u64 = 0;
    'items: loop {
        let (item, more) = next_item(most_depth, &Place::Prolog(stage), root, rest, count)?;
        match item {
            Item::StartTag(tag) => {
                return Ok(RootTag {
                    from_tag: rest,
                    tag,
                    is_short: false,
                    rest: more,
                    count,
                });
            }
            Item::EmptyTag(tag) => {
                return Ok(RootTag {
                    from_tag: rest,
                    tag,
                    is_short: true,
                    rest: more,
                    count,
                });
            }
            _ => {}
        }
        stage = stage.behind(&item);
        count += 1;
        rest = more;
    }
}
