//! The first phase: what one line does. `Progress`, the type of these methods, is in `progress.rt`; its other
//! methods are in `first_phase.rt`.

ghost use Rattle.std.specs.Prelude.{◌≡◌, ◌≤◌, ◌+◌, ◌∷◌, ◌++◌, [], OnOk, false};
ghost use Rattle.std.specs.List.{list_any};
ghost use Rattle.std.specs.Option.{option_map};
ghost use Rattle.c25_meaning_common.specs.Results.{Meets};
ghost use Rattle.c25_meaning_assembly.specs.AllFaults.{left_out};
ghost use Rattle.c25_meaning_assembly.specs.Sections as meaning;
ghost use Rattle.c25_expr.specs.View.{tree_of};
ghost use Rattle.c25_statements.specs.Exprs.{exprs_in};
ghost use Rattle.c25_statements.specs.View.{act_of, room_in, room_of, statement_of, texts_of, trees_of};
ghost use Rattle.c25_phases.specs.Origins.{origin_of};
ghost use Rattle.c25_phases.specs.Refused.{IsFull, IsKept, IsLabelled, IsUndone};
ghost use Rattle.c25_phases.specs.Sizes.{IsBlockSize, IsSize};
ghost use Rattle.c25_phases.specs.Steps.{begun, carried_out};
ghost use Rattle.c25_phases.specs.View.{progress_of};

use crate::counts::block_allowed;
use crate::item::{Content, PendingItem};
use crate::names::copied;
use crate::progress::Progress;
use crate::targets::target_size;
use c25_expr::symbols::is_predefined;
use c25_expr::tree::Expr;
use c25_meaning_assembly::assembly::Target;
use c25_meaning_common::failure::Failure;
use c25_meaning_common::no_memory::NoMemory;
use c25_meaning_common::placed::FileLine;
use c25_meaning_language::statement::FaultKind;
use c25_meaning_language::value::{Base, Value};
use c25_statements::address_label;
use c25_statements::statement::{AssemblyAct, Exprs, Room, Statement};

/// The words that a line lays: their section, the offset of the first one, and how many there are.
#[derive(Clone, Copy)]
struct LaidWords {
    section: u16,
    offset: u32,
    count: usize,
}

fn any_predefined(names: &[&str]) -> bool
    ensures { result ≡ list_any meaning.is_predefined (texts_of names.now) }
{
    for name in names {
        if is_predefined(name) {
            return true;
        }
    }
    false
}

impl<'a> Progress<'a> {
    fn of_kind(&self, section: &str, initialised: bool) -> Result<(), FaultKind>
        ensures { result ≡ meaning.of_kind section.now initialised (progress_of self.now) }
    {
        if self.sections.has_kind(section, initialised) {
            Ok(())
        } else {
            Err(FaultKind::OperandForm)
        }
    }

    /// Checks what has to hold before the line's label is defined.
    fn allowed(&self, act: &AssemblyAct<'_>) -> Result<(), FaultKind>
        ensures { result ≡ meaning.allowed (act_of act.now) (progress_of self.now) }
    {
        match act {
            AssemblyAct::Enter(section) => self.of_kind(section.as_str(), true),
            AssemblyAct::Reserve { section, room, .. } => {
                match self.of_kind(section.as_str(), false) {
                    Ok(()) => match room {
                        Ok(_) => Ok(()),
                        Err(fault) => Err(*fault),
                    },
                    Err(fault) => Err(fault),
                }
            }
            _ => Ok(()),
        }
    }

    fn label(&mut self, label: Option<&str>) -> Result<(), Failure<FaultKind>>
        ensures told { Meets (λ _. progress_of self.new) (meaning.label (option_map (λ t. t.now) label.entry) (progress_of self.old)) result }
        ensures kept { IsKept (progress_of self.old) result (progress_of self.new) }
    {
        match label {
            Some(name) => {
                let here = self.here();
                self.define(name, here)
            }
            None => Ok(()),
        }
    }

    /// `.text`, `.data`, `.sect`
    fn enter(&mut self, section: &str) -> Result<(), Failure<FaultKind>>
        ensures told { Meets (λ _. progress_of self.new) (meaning.enter section.now (progress_of self.old)) result }
        ensures full { IsFull result }
    {
        self.current = self.open(section, true)?;
        Ok(())
    }

    /// Reserves words for a name in an uninitialised section; they are a block where the flag is set.
    #[tactic(auto, unfolding(c25_meaning_assembly::specs::Sections::reserve))]
    fn reserve(
        &mut self,
        section: &str,
        name: &str,
        words: usize,
        flag: bool,
    ) -> Result<(), Failure<FaultKind>>
        requires size { IsBlockSize flag words }
        requires anew { meaning.stands (progress_of self.old).names name.now ≡ false }
        ensures told { Meets (λ _. progress_of self.new) (meaning.reserve section.now name.now words flag (progress_of self.old)) result }
        ensures full { IsFull result }
    {
        let section = self.open(section, false)?;
        let place = self.place_in(section);
        let offset = self.sections.size_at(section);
        self.grow(section, words)?;
        self.block(flag, section, offset, words)?;
        self.define(name, place)
    }

    /// Reserves room for a name, by the values of its count and its flag.
    fn reserve_room(
        &mut self,
        section: &str,
        name: &str,
        room: &Room,
    ) -> Result<(), Failure<FaultKind>>
        requires { meaning.stands (progress_of self.old).names name.now ≡ false }
        ensures told { Meets (λ _. progress_of self.new) (meaning.reserve_room section.now name.now (room_of room.now) (progress_of self.old)) result }
        ensures undone { IsUndone (progress_of self.old) result (progress_of self.new) }
    {
        let words = match self.count_in(&room.count) {
            Ok(words) => words,
            Err(fault) => return Err(Failure::Fault(fault)),
        };
        let flag = match self.flag_in(&room.flag) {
            Ok(flag) => flag,
            Err(fault) => return Err(Failure::Fault(fault)),
        };
        match block_allowed(flag, words) {
            Ok(()) => self.reserve(section, name, words as usize, flag),
            Err(fault) => Err(Failure::Fault(fault)),
        }
    }

    /// `.bss`, `.usect`
    fn reserve_count(
        &mut self,
        section: &str,
        name: &str,
        room: &Result<Room, FaultKind>,
    ) -> Result<(), Failure<FaultKind>>
        ensures told { Meets (λ _. progress_of self.new) (meaning.reserve_count section.now name.now (room_in room.now) (progress_of self.old)) result }
        ensures undone { IsUndone (progress_of self.old) result (progress_of self.new) }
    {
        if self.symbols.get(name).is_some() {
            return Err(Failure::Fault(FaultKind::Defined));
        }
        match room {
            Ok(room) => self.reserve_room(section, name, room),
            Err(fault) => Err(Failure::Fault(*fault)),
        }
    }

    /// `.set`, `.equ`
    fn equate(&mut self, name: &str, value: &Expr) -> Result<(), Failure<FaultKind>>
        ensures told { Meets (λ _. progress_of self.new) (meaning.equate name.now (tree_of value.now) (progress_of self.old)) result }
        ensures kept { IsKept (progress_of self.old) result (progress_of self.new) }
    {
        if self.symbols.get(name).is_some() {
            return Err(Failure::Fault(FaultKind::Defined));
        }
        match self.valued(value) {
            Ok(value) => self.define(name, value),
            Err(fault) => Err(Failure::Fault(fault)),
        }
    }

    /// Adds a mark where an instruction begins; data have no marks.
    fn mark_target(
        &mut self,
        origin: FileLine<&'a str>,
        target: Target,
        laid: LaidWords,
    ) -> Result<(), Failure<FaultKind>>
        requires within { laid.offset + laid.count ≤ 65536 }
        requires some { IsSize target laid.count }
        ensures told { Meets (λ _. progress_of self.new) (meaning.mark (origin_of origin.entry) target laid.section laid.offset laid.count (progress_of self.old)) result }
        ensures full { IsFull result }
    {
        match target {
            Target::Instruction(_) => {
                self.mark(origin, laid.section, laid.offset as u16, laid.count as u8)
            }
            Target::Data(_) => Ok(()),
        }
    }

    /// An instruction, `.word`, `.int`, `.byte`
    fn put(
        &mut self,
        origin: FileLine<&'a str>,
        target: Target,
        operands: Exprs,
    ) -> Result<(), Failure<FaultKind>>
        ensures told { Meets (λ _. progress_of self.new) (meaning.put (origin_of origin.entry) target (trees_of (exprs_in operands)) (progress_of self.old)) result }
        ensures full { IsFull result }
    {
        let count = target_size(target, operands.as_slice().len());
        let section = self.current;
        let offset = self.sections.size_at(section);
        let laid = LaidWords {
            section,
            offset,
            count,
        };
        self.lay(origin, Content::Operands(target, operands), count)?;
        self.mark_target(origin, target, laid)
    }

    /// `.space`
    fn space(&mut self, origin: FileLine<&'a str>, bits: &Expr) -> Result<(), Failure<FaultKind>>
        ensures told { Meets (λ _. progress_of self.new) (meaning.space (origin_of origin.entry) (tree_of bits.now) (progress_of self.old)) result }
        ensures undone { IsUndone (progress_of self.old) result (progress_of self.new) }
    {
        match self.count_in(bits) {
            Ok(bits) => {
                let words = (bits as usize + 15) / 16;
                self.lay(origin, Content::Zeros(words as u32), words)
            }
            Err(fault) => Err(Failure::Fault(fault)),
        }
    }

    #[tactic(auto, using(crate::proofs::Declared::few_missing))]
    fn declare_one(&mut self, name: &str) -> Result<(), NoMemory>
        ensures { OnOk result (progress_of self.new ≡ record (progress_of self.old) { declared = meaning.once (progress_of self.old).declared name.now }) }
    {
        if self.declared.has(name) {
            return Ok(());
        }
        let _known = self.declared.len();
        let is_missing = self.symbols.get(name).is_none();
        self.declared.add(name)?;
        if is_missing {
            self.missing += 1;
        }
        Ok(())
    }

    fn declare_all(&mut self, names: &[&str]) -> Result<(), NoMemory>
        ensures { OnOk result (progress_of self.new ≡ record (progress_of self.old) { declared = meaning.all_once (progress_of self.old).declared (texts_of names.now) }) }
    {
        for name in names {
            self.declare_one(name)?;
        }
        Ok(())
    }

    /// Gives the label of a line that is left out the place where the line begins, if it has no value yet.
    pub(crate) fn keep_label(&mut self, text: &str) -> Result<(), NoMemory>
        ensures { OnOk result (progress_of self.new ≡ left_out text.now (progress_of self.old)) }
    {
        match self.label(address_label(text)) {
            Ok(()) | Err(Failure::Fault(_)) => Ok(()),
            Err(Failure::NoMemory(error)) => Err(error),
        }
    }

    /// `.global`, `.ref`
    fn declare(&mut self, names: &[&str]) -> Result<(), Failure<FaultKind>>
        ensures told { Meets (λ _. progress_of self.new) (meaning.declare (texts_of names.now) (progress_of self.old)) result }
        ensures kept { IsKept (progress_of self.old) result (progress_of self.new) }
    {
        if any_predefined(names) {
            return Err(Failure::Fault(FaultKind::Defined));
        }
        self.declare_all(names)?;
        self.exported.add_all(names).map_err(Failure::NoMemory)
    }

    /// `.def`
    fn export(
        &mut self,
        origin: FileLine<&'a str>,
        names: &[&str],
    ) -> Result<(), Failure<FaultKind>>
        ensures told { Meets (λ _. progress_of self.new) (meaning.export (origin_of origin.entry) (texts_of names.now) (progress_of self.old)) result }
        ensures undone { IsUndone (progress_of self.old) result (progress_of self.new) }
    {
        if any_predefined(names) {
            return Err(Failure::Fault(FaultKind::Defined));
        }
        self.exported.add_all(names)?;
        let names = copied(self.alloc, names)?;
        let section = self.current;
        let offset = self.sections.size_at(section);
        self.wait(PendingItem {
            origin,
            section,
            offset,
            content: Content::Exported(names),
        })
    }

    /// `.label`
    fn name_loaded(&mut self, name: &str) -> Result<(), Failure<FaultKind>>
        ensures told { Meets (λ _. progress_of self.new) (meaning.name_loaded name.now (progress_of self.old)) result }
        ensures kept { IsKept (progress_of self.old) result (progress_of self.new) }
    {
        let here = self.loaded_here();
        self.define(name, here)
    }

    fn define_register(&mut self, name: &str, number: u8) -> Result<(), Failure<FaultKind>>
        ensures told { Meets (λ _. progress_of self.new) (meaning.define name.now (meaning.value_of_number number) (progress_of self.old)) result }
        ensures names { OnOk result ((progress_of self.new).names ≡ (progress_of self.old).names ++ (name.now, meaning.value_of_number number) ∷ []) }
        ensures anew { meaning.stands (progress_of self.old).names name.now ≡ false → IsFull result }
    {
        let value = Value {
            base: Base::Absolute,
            offset: i32::from(number),
        };
        self.define(name, value)
    }

    /// Whether the name of a memory-mapped register is defined.
    fn has_register(&self) -> bool
        ensures { result ≡ list_any (λ pair. meaning.stands (progress_of self.now).names pair.0) meaning.register_names }
    {
        self.symbols.get("DRR").is_some()
            || self.symbols.get("DXR").is_some()
            || self.symbols.get("TIM").is_some()
            || self.symbols.get("PRD").is_some()
            || self.symbols.get("IMR").is_some()
            || self.symbols.get("GREG").is_some()
    }

    /// `.mmregs`: all names are new, or none is defined.
    #[tactic(auto, unfolding(c25_meaning_assembly::specs::Sections::registers))]
    fn name_registers(&mut self) -> Result<(), Failure<FaultKind>>
        ensures told { Meets (λ _. progress_of self.new) (meaning.registers (progress_of self.old)) result }
        ensures undone { IsUndone (progress_of self.old) result (progress_of self.new) }
    {
        if self.registers {
            return Ok(());
        }
        if self.has_register() {
            return Err(Failure::Fault(FaultKind::Defined));
        }
        self.registers = true;
        self.define_register("DRR", 0)?;
        self.define_register("DXR", 1)?;
        self.define_register("TIM", 2)?;
        self.define_register("PRD", 3)?;
        self.define_register("IMR", 4)?;
        self.define_register("GREG", 5)
    }

    /// Does what a line says.
    fn act(
        &mut self,
        origin: FileLine<&'a str>,
        act: AssemblyAct<'_>,
    ) -> Result<(), Failure<FaultKind>>
        ensures told { Meets (λ _. progress_of self.new) (meaning.act (origin_of origin.entry) (act_of act.entry) (progress_of self.old)) result }
        ensures undone { IsUndone (progress_of self.old) result (progress_of self.new) }
    {
        match act {
            AssemblyAct::Nothing => Ok(()),
            AssemblyAct::Enter(section) => self.enter(section.as_str()),
            AssemblyAct::Reserve {
                section,
                name,
                room,
            } => self.reserve_count(section.as_str(), name, &room),
            AssemblyAct::Equate { name, value } => self.equate(name, &value),
            AssemblyAct::Put(target, operands) => self.put(origin, target, operands),
            AssemblyAct::Load(words) => {
                let count = words.len();
                self.lay(origin, Content::Words(words), count)
            }
            AssemblyAct::Space(bits) => self.space(origin, &bits),
            AssemblyAct::Declare(names) => self.declare(names.as_slice()),
            AssemblyAct::Export(names) => self.export(origin, names.as_slice()),
            AssemblyAct::Label(name) => self.name_loaded(name),
            AssemblyAct::Registers => self.name_registers(),
        }
    }

    /// What comes before a line's act: the checks, then the label.
    fn begin(
        &mut self,
        label: Option<&str>,
        act: &AssemblyAct<'_>,
    ) -> Result<(), Failure<FaultKind>>
        ensures told { Meets (λ _. progress_of self.new) (begun (option_map (λ t. t.now) label.entry) (act_of act.now) (progress_of self.old)) result }
        ensures kept { IsKept (progress_of self.old) result (progress_of self.new) }
    {
        match self.allowed(act) {
            Ok(()) => self.label(label),
            Err(fault) => Err(Failure::Fault(fault)),
        }
    }

    /// A line's act, after which there must not be too many names.
    fn carry_out(
        &mut self,
        origin: FileLine<&'a str>,
        act: AssemblyAct<'_>,
    ) -> Result<(), Failure<FaultKind>>
        ensures told { Meets (λ _. progress_of self.new) (carried_out (origin_of origin.entry) (act_of act.entry) (progress_of self.old)) result }
        ensures undone { IsUndone (progress_of self.old) result (progress_of self.new) }
        ensures few { OnOk result (meaning.name_count (progress_of self.new).names (progress_of self.new).declared ≤ 65535) }
    {
        self.act(origin, act)?;
        self.few().map_err(Failure::Fault)
    }

    /// Passes one line more: its label, then its act.
    #[tactic(auto, unfolding(c25_meaning_assembly::specs::Sections::pass), using(crate::proofs::Passed::in_two))]
    pub(crate) fn pass(
        &mut self,
        origin: FileLine<&'a str>,
        statement: Statement<'_>,
    ) -> Result<(), Failure<FaultKind>>
        ensures told { Meets (λ _. progress_of self.new) (meaning.pass (origin_of origin.entry) (statement_of statement.entry) (progress_of self.old)) result }
        ensures kept { IsLabelled (statement_of statement.entry).label (progress_of self.old) result (progress_of self.new) }
        ensures few { OnOk result (meaning.name_count (progress_of self.new).names (progress_of self.new).declared ≤ 65535) }
    {
        let Statement { label, act } = statement;
        match self.begin(label, &act) {
            Ok(()) => self.carry_out(origin, act),
            Err(failure) => Err(failure),
        }
    }
}
