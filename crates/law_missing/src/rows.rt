//! What the definitions say of small words and documents.

ghost use Rattle.law_missing.specs.Tables.{TableRow};
ghost use Rattle.law_missing.specs.Rows.{AnyRow, BlankRow, CommentRow, CompletedRow, DeepRow};
ghost use Rattle.law_missing.specs.Rows.{DoublingRow, EmRow, EndlessRow, HeadRow, HeadTextRow};
ghost use Rattle.law_missing.specs.Rows.{HelloRow, LetterRow, LiveWords, NestedRow, NumbersRow};
ghost use Rattle.law_missing.specs.Rows.{OtherWords, PairRow, ParagraphRow, ReferenceRow};
ghost use Rattle.law_missing.specs.Rows.{SectionWords, TitleRow, UnknownRow};

/// Words of the content of elements and of the document node, each with its answer.
pub fn possible_words_law()
    ensures sections { SectionWords }
    ensures others { OtherWords }
    ensures live { LiveWords }
{}

/// `<doc>Hello</doc>` misses a head round the text and an empty sec.
pub fn text_alone_law()
    ensures { HelloRow }
{}

/// `<doc><head>He</head>llo</doc>` misses a sec and a title or p round the text after the head.
pub fn text_behind_head_law()
    ensures { HeadTextRow }
{}

/// `<doc><em>x</em></doc>` misses a head, a sec and a p.
pub fn em_alone_law()
    ensures { EmRow }
{}

/// `<doc><p>a</p><title>b</title></doc>` misses a head and two secs.
pub fn title_behind_p_law()
    ensures { TitleRow }
{}

/// `<doc><sec/><head/></doc>` is impossible.
pub fn head_behind_sec_law()
    ensures { HeadRow }
{}

/// `<p>a</p>` misses the root, a head and a sec.
pub fn missing_root_law()
    ensures { ParagraphRow }
{}

/// A blank in an EMPTY element is impossible.
pub fn blank_in_empty_element_law()
    ensures { BlankRow }
{}

/// A comment and white space are nothing outside EMPTY elements.
pub fn comment_is_nothing_law()
    ensures { CommentRow }
{}

/// A reference to white space is data, and a literal blank is not.
pub fn reference_to_blank_is_data_law()
    ensures { ReferenceRow }
{}

/// Missing elements stand one inside another.
pub fn missing_inside_missing_law()
    ensures { NestedRow }
{}

/// A name that is not productive makes a document impossible.
pub fn unproductive_name_law()
    ensures { EndlessRow }
{}

/// `<a/>` misses a b, and `<a><b/></a>` misses nothing.
pub fn one_missing_law()
    ensures { PairRow }
{}

/// More than two million elements are missing.
pub fn many_missing_law()
    ensures { DoublingRow }
{}

/// A name that the DTD does not have, or only mentions, makes a document impossible.
pub fn unknown_name_law()
    ensures { UnknownRow }
{}

/// Nested em elements are valid at any depth.
pub fn valid_at_any_depth_law()
    ensures { DeepRow }
{}

/// A document with a reference, a CDATA section and a processing instruction misses a p.
pub fn letter_misses_p_law()
    ensures { LetterRow }
{}

/// The document of the letter with a title and two ps more, in which nothing is missing.
pub fn completed_letter_law()
    ensures { CompletedRow }
{}

/// A list of an ANY element with an unproductive kid is impossible, though it is valid by itself.
pub fn unproductive_kid_of_any_law()
    ensures { AnyRow }
{}

/// Some parts by their numbers.
pub fn part_numbers_law()
    ensures { NumbersRow }
{}

/// The table of `<a/>` is closed, isn't closed without its entry of a missing element, and one b
/// completes the document.
pub fn closed_table_law()
    ensures { TableRow }
{}
