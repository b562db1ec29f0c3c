//! Laws of words.

ghost use Rattle.pv_missing.specs.WordLaws.{ContentDerives, DepthsAgree, Doubled, LeftOut};
ghost use Rattle.pv_missing.specs.WordLaws.{LiveAgrees, LiveFollows, OneLiveWord};
ghost use Rattle.pv_missing.specs.WordLaws.{OwnerIsProductive};
ghost use Rattle.pv_missing.specs.WordLaws.{PossibleDerives, RootDerives, SizeIsMissing};

/// A word is possible by depths exactly where it is possible with some number of missing elements.
pub fn depths_law()
    ensures { DepthsAgree }
{}

/// A possible word stays possible where a token is left out.
pub fn left_out_law()
    ensures { LeftOut }
{}

/// A text may be doubled, and two texts side by side merged, with as many elements missing.
pub fn doubled_law()
    ensures { Doubled }
{}

/// The live word is possible exactly where the word is.
pub fn live_word_law()
    ensures { LiveAgrees }
{}

/// A live word has productive names only and the word's length, and is the word itself where it is
/// possible.
pub fn live_follows_law()
    ensures { LiveFollows }
{}

/// An element for whose content some word is possible has a productive name.
pub fn owner_productive_law()
    ensures { OwnerIsProductive }
{}

/// The least size of a name is one more than the least number of elements missing in empty content.
pub fn size_law()
    ensures { SizeIsMissing }
{}

/// A word has at most one live word.
pub fn one_live_word_law()
    ensures { OneLiveWord }
{}

/// A word of productive names is possible for the content of an element exactly where the content
/// derives it.
pub fn content_derives_law()
    ensures { ContentDerives }
{}

/// A word of productive names is possible for the document node exactly where the root's name
/// derives it.
pub fn root_derives_law()
    ensures { RootDerives }
{}

/// A word of productive names is possible for an owner exactly where its site derives it.
pub fn possible_derives_law()
    ensures { PossibleDerives }
{}
