//! Laws of the rows and documents that are read. Each is the contract of a function with nothing
//! to do, so that it is proved with the crate.
#![tactic(auto)]

ghost use Rattle.std.specs.Prelude.{◌≡◌, ◌↔◌, ℕ, List, Some};
ghost use Rattle.tt_rows.specs.Sound.{AreSound};
ghost use Rattle.tt_rows.specs.declared.row.NumberedRow.{NumberedRow};
ghost use Rattle.tt_rows.specs.declared.row.Row.{Row};
ghost use Rattle.tt_doc.specs.Lines.{lines_of};
ghost use Rattle.tt_read.specs.Document.{Document, Fault, document_of, canonical_text, numbered_from};
ghost use Rattle.tt_read.specs.Reading.{row_of};
ghost use Rattle.tt_read.specs.Spells.{Spells};
ghost use Rattle.tt_read.specs.WhatIsRead.{AreReadAs, IsFirstFault};

/// The words of a line are read as a row exactly where they spell it: so a row has one spelling,
/// and a spelling one row.
pub fn words_are_a_row()
    ensures { (words : List (List ℕ)) (row : Row) → (row_of words ≡ Some row) ↔ Spells words row }
{}

/// Where a document has rows, no line has a fault, and the rows are those that the lines spell,
/// each with the number of its line, in the order of the lines.
pub fn rows_are_what_lines_spell()
    ensures { (bytes : List ℕ) (rows : List NumberedRow) → document_of bytes ≡ Document.Rows rows
        → AreReadAs (lines_of bytes) rows }
{}

/// Where a document has a fault, it is the least fault of the first line that has one.
pub fn faults_are_first_and_least()
    ensures { (bytes : List ℕ) (fault : Fault) → document_of bytes ≡ Document.Faulty fault
        → IsFirstFault 1 (lines_of bytes) fault }
{}

/// The rows of a document are sound.
pub fn documents_have_sound_rows()
    ensures { (bytes : List ℕ) (rows : List NumberedRow) → document_of bytes ≡ Document.Rows rows
        → AreSound rows }
{}

/// The canonical text of sound rows is read as the same rows, in the lines 1, 2, 3 and so on.
pub fn shown_rows_are_read()
    ensures { (rows : List NumberedRow) → AreSound rows
        → document_of (canonical_text rows) ≡ Document.Rows (numbered_from 1 rows) }
{}

/// What is read from a shown text is shown as that text again.
pub fn shown_texts_are_shown_again()
    ensures { (rows again : List NumberedRow) → AreSound rows
        → document_of (canonical_text rows) ≡ Document.Rows again
        → canonical_text again ≡ canonical_text rows }
{}
