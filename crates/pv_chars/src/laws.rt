//! Laws on what stands at the front of some bytes, and on texts. Their functions do nothing.

ghost use Rattle.pv_chars.specs.Laws.{IsDetermined, CodesAreDetermined, EndsAreDetermined};
ghost use Rattle.pv_chars.specs.Laws.{NamesAreDetermined, NamesAreTested, PartsAreDetermined};
ghost use Rattle.pv_chars.specs.Laws.{QuotedAreDetermined, EntityRefsAreDetermined};
ghost use Rattle.pv_chars.specs.Laws.{TextsMeanOne, UnitsAreDetermined};
ghost use Rattle.pv_chars.specs.Markup.{IsComment, IsInstruction, IsCdata};
ghost use Rattle.pv_chars.specs.Declarations.{IsVersionInfo, IsEncodingDecl, IsStandaloneDecl};
ghost use Rattle.pv_chars.specs.Declarations.{IsTextDecl, IsXmlDecl};
ghost use Rattle.pv_chars.specs.References.{IsCharRef};

/// At most one code point stands at the front.
pub fn one_code_law()
    ensures { CodesAreDetermined }
{}

/// The longest Name at the front is one only, and so is what stands after it.
pub fn one_name_law()
    ensures { NamesAreDetermined }
{}

/// The test `is_name` holds exactly of bytes that are a Name.
pub fn name_test_law()
    ensures { NamesAreTested }
{}

/// A delimiter has one first place.
pub fn one_end_law()
    ensures { EndsAreDetermined }
{}

/// At most one comment, processing instruction or CDATA section stands at the front.
pub fn one_item_law()
    ensures comment { IsDetermined IsComment }
    ensures instruction { IsDetermined IsInstruction }
    ensures cdata { IsDetermined IsCdata }
{}

/// At most one value in quotes stands at the front, and at most one part of an XML declaration
/// with a given word.
pub fn one_part_law()
    ensures quoted { QuotedAreDetermined }
    ensures part { PartsAreDetermined }
{}

/// At most one XML declaration, text declaration, or part of them of a kind, stands at the front.
pub fn one_declaration_law()
    ensures version { IsDetermined IsVersionInfo }
    ensures encoding { IsDetermined IsEncodingDecl }
    ensures standalone { IsDetermined IsStandaloneDecl }
    ensures text { IsDetermined IsTextDecl }
    ensures xml { IsDetermined IsXmlDecl }
{}

/// At most one reference stands at the front.
pub fn one_reference_law()
    ensures by_code { IsDetermined IsCharRef }
    ensures by_name { EntityRefsAreDetermined }
{}

/// A text means one thing only: its units, or its first fault. Units are told by their bytes,
/// joined.
pub fn one_meaning_law()
    ensures text { TextsMeanOne }
    ensures units { UnitsAreDetermined }
{}
