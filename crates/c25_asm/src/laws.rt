//! Laws of the faults of a source: its trail is of the fault that is reported, and the first of all its faults
//! is that fault. Their functions have empty bodies.

ghost use Rattle.std.specs.Prelude.{◌≡◌, ◌↔◌, ℕ, List, [], ◌∷◌, Option, Ok, Err};
ghost use Rattle.c25_meaning_expansion.specs.Files.{Files};
ghost use Rattle.c25_meaning_common.specs.declared.placed.FileLine.{FileLine};
ghost use Rattle.c25_meaning_language.specs.ExpansionFault.{ExpansionFault};
ghost use Rattle.c25_meaning_assembly.specs.AllFaults.{all_faults};
ghost use Rattle.c25_meaning_assembly.specs.ModuleOfSource.{Assembled, assembled};
ghost use Rattle.c25_asm.specs.Seen.{Seen};
ghost use Rattle.c25_asm.specs.Trails.{IsTrail};

/// The fault of a source's trail is the one with which the source is refused.
pub fn trails_are_of_the_fault_that_is_told()
    ensures { (files : Files) (name : List ℕ) (fault : ExpansionFault) (trail : List (FileLine ℕ)) (seen : Option Seen) → IsTrail files name fault trail seen
        → assembled files name ≡ Err fault }
{}

/// A source has no fault exactly where it is assembled; else the first of all its faults is the one with which
/// it is refused.
pub fn the_first_of_all_faults_is_the_one_that_is_reported()
    ensures none { (files : Files) (name : List ℕ) → (all_faults files name ≡ []) ↔ ((a : Assembled) × (assembled files name ≡ Ok a)) }
    ensures first { (files : Files) (name : List ℕ) (fault : ExpansionFault) → assembled files name ≡ Err fault
        → (rest : List ExpansionFault) × (all_faults files name ≡ fault ∷ rest) }
{}
