//! The DTDs of the rows, a document and a pack, under plain names.

/// An article of sections with paragraphs and lists.
pub const ARTICLE: &str = "<!ELEMENT doc (head, sec+)>
<!ELEMENT head (#PCDATA)>
<!ELEMENT sec (title?, (p|list)*)>
<!ELEMENT title (#PCDATA)>
<!ELEMENT p (#PCDATA|em|br)*>
<!ELEMENT em (#PCDATA|em)*>
<!ELEMENT br EMPTY>
<!ELEMENT list (item, item+)>
<!ELEMENT item (p+)>
";

/// A document of an article, with items of every kind.
pub const REALISTIC: &str = "<?xml version=\"1.0\" encoding=\"UTF-8\"?>
<!DOCTYPE doc SYSTEM \"a.dtd\">
<!-- draft -->
<doc id=\"d1\">
<head>On caf&#233;s</head>
<sec class='intro'>
Cafés opened early. See <![CDATA[<menu>]]> below.
<em>Tea</em> came later.<br />
</sec>
<?page 2?>
</doc>
";

/// One element of text.
pub const TEXT: &str = "<!ELEMENT doc (#PCDATA)>";

/// One element without content.
pub const EMPTY: &str = "<!ELEMENT doc EMPTY>";

/// One element of any content.
pub const ANY: &str = "<!ELEMENT a ANY>";

/// Any content, and an element without content.
pub const ANY_OR_EMPTY: &str = "<!ELEMENT a ANY><!ELEMENT b EMPTY>";

/// Any content, and an element that may hold one that isn't declared.
pub const ANY_OR_OPTIONAL: &str = "<!ELEMENT r ANY><!ELEMENT s (u?)>";

/// An element that needs itself.
pub const ENDLESS: &str = "<!ELEMENT a (a)>";

/// Any content, and an element that needs one that isn't declared.
pub const ANY_OR_ENDLESS: &str = "<!ELEMENT a ANY><!ELEMENT c (b)>";

/// Pairs, of which a first member may hold another.
pub const NESTED: &str = "<!ELEMENT x ((x, y)?)><!ELEMENT y EMPTY>";

/// Any content, and an element that needs another of its kind.
pub const ENDLESS_IN_ANY: &str = "<!ELEMENT a ANY><!ELEMENT c (c)>";

/// The content of `a` leads back to itself with a `c` after it; that of `d` does so through
/// several names.
pub const LEADING_BACK: &str = "<!ELEMENT a (b, c?)><!ELEMENT b (a?)><!ELEMENT c EMPTY>\
    <!ELEMENT d (e, c?)><!ELEMENT e (f|c)><!ELEMENT f (g?, c?)><!ELEMENT g (d+)>";

/// Text and one element, beside another that it doesn't list.
pub const MIXED: &str = "<!ELEMENT a (#PCDATA|b)*><!ELEMENT b EMPTY><!ELEMENT c EMPTY>";

/// Text and an element that isn't declared.
pub const MIXED_UNDECLARED: &str = "<!ELEMENT a (#PCDATA|b)*>";

/// An element that isn't declared.
pub const UNDECLARED: &str = "<!ELEMENT a (b)>";

/// An element with a name in Greek.
pub const GREEK: &str = "<!ELEMENT λόγος (#PCDATA)>";

/// Types each of which needs two of the next.
pub const DOUBLING: &str =
    "<!ELEMENT t0 (t1,t1)><!ELEMENT t1 (t2,t2)><!ELEMENT t2 (t3,t3)><!ELEMENT t3 (t4,t4)>\
     <!ELEMENT t4 (t5,t5)><!ELEMENT t5 (t6,t6)><!ELEMENT t6 (t7,t7)><!ELEMENT t7 (t8,t8)>\
     <!ELEMENT t8 (t9,t9)><!ELEMENT t9 (t10,t10)><!ELEMENT t10 (t11,t11)><!ELEMENT t11 (t12,t12)>\
     <!ELEMENT t12 (t13,t13)><!ELEMENT t13 (t14,t14)><!ELEMENT t14 (t15,t15)>\
     <!ELEMENT t15 (t16,t16)><!ELEMENT t16 (t17,t17)><!ELEMENT t17 (t18,t18)>\
     <!ELEMENT t18 (t19,t19)><!ELEMENT t19 (t20,t20)><!ELEMENT t20 EMPTY>";

/// The pack of an element `a` that needs another one, `b`.
pub const ONE_MISSING: &str = "pvpack 1
total 1
mark 1
body 14
<a><b></b></a>
list 0
c 0 0 0 1
c 1 0 0 0
n 0 0 0 2
n 1 0 0 1
p 0 0 0 1
p 1 0 0 1
s 1 0 0 1
end
";
