//! Laws of what is found, each the contract of a function that does nothing.

ghost use Rattle.std.specs.Prelude.{ℕ, [], List, true};
ghost use Rattle.c25_meaning_linking.specs.Linking.{ImageData};
ghost use Rattle.c25_page_reports.specs.Findings.{ArePageFindings, ArePagesSure};
ghost use Rattle.c25_page_reports.specs.declared.operands.PageOperand.{PageOperand};

/// Where all is asked for and there is no warning, the data pages of a program are sure: each of its direct operands that
/// were looked at, as `page_operands` has them, is surely the word that is meant, and its code is never left, in each run
/// from a reset that is as the knowledge supposes (the laws of c25_page_laws). Without `all` nothing follows from there
/// being no warning.
pub fn without_warnings_pages_are_sure()
    ensures { (operands : List PageOperand) (image : ImageData) (facts : List ℕ)
        → ArePageFindings true operands image [] facts → ArePagesSure operands image }
{}
