//! The item at the front, in the root.

ghost use Rattle.std.specs.Prelude.{◌≡◌, ◌<◌, [], ◌++◌, codes, length, IfOk, IfErr, IfSome};
ghost use Rattle.std.specs.Prelude.{IsTrue, if◌then◌else◌};
ghost use Rattle.pv_chars.specs.Names.{IsName};
ghost use Rattle.pv_tree.specs.Marks.{blank_mark};
ghost use Rattle.pv_tree.specs.declared.nodes.Mark.{Mark};
ghost use Rattle.pv_read.specs.Errors.{Refuses};
ghost use Rattle.pv_read.specs.Items.{bytes_of};
ghost use Rattle.pv_read.specs.Left.{Left};
ghost use Rattle.pv_read.specs.Limits.{IsDeepest};
ghost use Rattle.pv_read.specs.Meaning.{DocumentRestMeans};
ghost use Rattle.pv_read.specs.PlainItems.{plain_item};
ghost use Rattle.pv_read.specs.Places.{place_reached, content};
ghost use Rattle.pv_read.specs.Steps.{TakesItem};
ghost use Rattle.pv_lists.specs.Runs.{BeginsKnownRun};
ghost use Rattle.pv_dtd.specs.Plain.{PlainDtd};
ghost use Rattle.pv_lists.specs.Tags.{IsBareTag, IsTypeOfTag};
ghost use Rattle.pv_lists.specs.Types.{AreTypesNamed, AreTypes, IsTypeOf};

use crate::open::OpenList;
use crate::types::{ElementType, FoundTypes};
use pv_chars::are_simple;
use pv_chars::delimiters::up_to_byte;
use pv_chars::scan::after_bytes;
use pv_read::DocError;
use pv_read::faults::next_item;
use pv_read::forms::{Item, Tag, run_at};
use pv_read::places::Place;

// The text run at the front, where each of its characters is one of ASCII that stands for itself
// and isn't `>`.
fn simple_run_at(bytes: &[u8]) -> Option<(&[u8], &[u8])>
    ensures begins { IfSome result (λ r. BeginsKnownRun bytes.now r.0.now r.1.now) }
    ensures within { IfSome result (λ r. length r.1.now < length bytes.now) }
{
    if let [b'<', ..] = bytes {
        return None;
    }
    let (run, rest) = run_at(bytes);
    if run.is_empty() || !are_simple(run) {
        return None;
    }
    Some((run, rest))
}

// What stands after the end tag of this name at the front, where no white space stands in it.
fn after_end_tag<'a>(name: &[u8], bytes: &'a [u8]) -> Option<&'a [u8]>
    ensures whole { IfSome result (λ r.
        bytes.now ≡ codes "</" ++ (name.now ++ (codes ">" ++ r.now))) }
    ensures within { IfSome result (λ r. length r.now < length bytes.now) }
{
    let start = after_bytes(b"</", bytes)?;
    let end = after_bytes(name, start)?;
    after_bytes(b">", end)
}

// The name in a tag without attributes, of which this stands between `<` and `>`, and whether the
// tag is an empty-element tag.
fn name_inside(inside: &[u8]) -> (&[u8], bool)
    ensures { inside.now ≡ result.0.now ++ (if result.1 then codes "/" else []) }
{
    match inside {
        [name @ .., b'/'] => (name, true),
        name => (name, false),
    }
}

// The start tag or empty-element tag at the front, where its name was found lately and no attribute
// stands in it, what stands after it, and its type.
fn known_tag_at<'a>(
    types: &FoundTypes<'a>,
    bytes: &'a [u8],
) -> Option<(Item<'a>, &'a [u8], ElementType<'a>)>
    requires { AreTypesNamed types.now }
    ensures named { IfSome result (λ r. IsName r.2.name.now) }
    ensures bare { IfSome result (λ r. IsBareTag r.2.name.now (plain_item r.0)) }
    ensures typed { (g : PlainDtd) → AreTypes g types.now →
        IfSome result (λ r. IsTypeOf g r.2.name.now r.2) }
    ensures whole { IfSome result (λ r. bytes.now ≡ bytes_of (plain_item r.0) ++ r.1.now) }
    ensures within { IfSome result (λ r. length r.1.now < length bytes.now) }
{
    let start = after_bytes(b"<", bytes)?;
    let (inside, rest) = up_to_byte(b'>', start)?;
    let (name, is_short) = name_inside(inside);
    let kind = types.known(name)?;
    let tag = Tag {
        name: kind.name,
        attrs: b"",
    };
    if is_short {
        Some((Item::EmptyTag(tag), rest, kind))
    } else {
        Some((Item::StartTag(tag), rest, kind))
    }
}

// Whether another element may stand inside so many.
fn may_open(most_depth: Option<usize>, open_elements: usize) -> bool
    ensures { IsTrue result → IsDeepest most_depth open_elements → ⊥ }
{
    match most_depth {
        Some(most) => open_elements < most,
        None => true,
    }
}

/// The item at the front, what stands after it, and of a start tag or an empty-element tag whose
/// name was found lately the type; or the first kind of fault there, after so many items, in this
/// open element, with so many open ones. A run of simple characters is told by one look at them, an
/// end tag by its element's name, and a tag that opens an element by the names that were found.
/// Elements stand at most so deep, or at any depth.
pub fn item_in<'a, B>(
    most_depth: Option<usize>,
    element: &OpenList<'a, B>,
    types: &FoundTypes<'a>,
    open_elements: usize,
    root: &[u8],
    rest: &'a [u8],
    count: u64,
) -> Result<(Item<'a>, &'a [u8], Option<ElementType<'a>>), DocError>
    requires open { 0 < open_elements }
    requires named { IsTrue element.now.is_name → IsName element.now.name.now }
    requires types { AreTypesNamed types.now }
    ensures taken { IfOk result (λ r. (left : Left Mark) →
        place_reached left ≡ content element.now.name.now open_elements →
        TakesItem most_depth blank_mark root.now left rest.now (plain_item r.0)
        r.1.now) }
    ensures refused { IfErr result (λ e. (left : Left Mark) →
        place_reached left ≡ content element.now.name.now open_elements →
        Refuses (DocumentRestMeans most_depth blank_mark root.now count left rest.now)
        e) }
    ensures typed { (g : PlainDtd) → AreTypes g types.now →
        IfOk result (λ r. IfSome r.2 (IsTypeOfTag g (plain_item r.0))) }
    ensures within { IfOk result (λ r. length r.1.now < length rest.now) }
{
    if let Some((run, more)) = simple_run_at(rest) {
        return Ok((Item::TextRun(run), more, None));
    }
    let name = element.name;
    if element.is_name
        && let Some(more) = after_end_tag(name, rest)
    {
        return Ok((Item::EndTag { name, gap: b"" }, more, None));
    }
    if may_open(most_depth, open_elements)
        && let Some((item, more, kind)) = known_tag_at(types, rest)
    {
        return Ok((item, more, Some(kind)));
    }
    let place = Place::Content(name, open_elements);
    let (item, more) = next_item(most_depth, &place, root, rest, count)?;
    Ok((item, more, None))
}
