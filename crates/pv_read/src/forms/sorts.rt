//! The sort of an item, by its first bytes.

ghost use Rattle.std.specs.Prelude.{◌≡◌};
ghost use Rattle.pv_read.specs.Sorts.{sort_of, sort_behind_less, sort_behind_mark};

/// What alone an item may be, by its first bytes.
#[derive(Clone, Copy)]
pub enum Sort {
    /// A text run: no `<`.
    Text,
    /// A start tag or an empty-element tag: `<` and none of the below.
    Tag,
    /// An end tag: `</`.
    EndTag,
    /// A comment, `<!-`, a processing instruction or an XML declaration, `<?`.
    Misc,
    /// A CDATA section: `<![`.
    Section,
    /// A document type declaration: `<!` and something else.
    Doctype,
}

// By what stands after `<!`.
fn sort_behind_mark(bytes: &[u8]) -> Sort
    ensures { result ≡ sort_behind_mark bytes.now }
{
    match bytes {
        [b'-', ..] => Sort::Misc,
        [b'[', ..] => Sort::Section,
        _ => Sort::Doctype,
    }
}

// By what stands after `<`.
fn sort_behind_less(bytes: &[u8]) -> Sort
    ensures { result ≡ sort_behind_less bytes.now }
{
    match bytes {
        [b'/', ..] => Sort::EndTag,
        [b'!', more @ ..] => sort_behind_mark(more),
        [b'?', ..] => Sort::Misc,
        _ => Sort::Tag,
    }
}

/// The sort of an item at the front.
pub fn sort_of(bytes: &[u8]) -> Sort
    ensures { result ≡ sort_of bytes.now }
{
    match bytes {
        [b'<', more @ ..] => sort_behind_less(more),
        _ => Sort::Text,
    }
}
