//! Laws of what is said, each the contract of a function that only calls the laws on which it rests.

ghost use Rattle.std.specs.Prelude.{ℕ, [], Bool, List};
ghost use Rattle.c25_check.specs.Checking.{TellsPages, operands_meant};
ghost use Rattle.c25_check.specs.declared.showing.Paging.TheVariants.{All};
ghost use Rattle.c25_meaning_expansion.specs.Files.{Files};
ghost use Rattle.c25_meaning_linking.specs.Linking.{ImageData};
ghost use Rattle.c25_meaning_objects.specs.Module.{Contents};
ghost use Rattle.c25_page_reports.specs.Findings.{ArePagesSure};

use c25_page_reports::laws::without_warnings_pages_are_sure;

/// Where all that is found of data pages is asked for, with explanations or without, and no warning is written, the data
/// pages of a program are sure: each of its direct operands that is relocated, and each that is a number from 128 on in
/// its sources, is surely the word that is meant, and its code is never left, in each run from a reset that is as the
/// knowledge supposes (the laws of c25_page_laws).
pub fn without_lines_pages_are_sure()
    ensures { (explain : Bool) (files : Files) (sources : List (List ℕ)) (modules : List Contents) (image : ImageData) (facts : List ℕ)
        → TellsPages explain All (operands_meant files sources modules image) image [] facts → ArePagesSure (operands_meant files sources modules image) image }
{
    without_warnings_pages_are_sure();
}
