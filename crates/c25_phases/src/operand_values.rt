//! The values of a line's operands, when all names are known.

ghost use Rattle.std.specs.Prelude.{◌≡◌, length, OnOk};
ghost use Rattle.c25_meaning_assembly.specs.Addresses.{no_operands, with_number, with_address, with_value, taken, operand_values, AreWithin};
ghost use Rattle.c25_meaning_assembly.specs.OperandFields.{target_size, FitsTarget};
ghost use Rattle.c25_meaning_common.specs.Results.{Meets};
ghost use Rattle.c25_meaning_language.specs.Statement.{valued};
ghost use Rattle.c25_expr.specs.View.{tree_of};
ghost use Rattle.c25_statements.specs.View.{trees_of};

use crate::targets::field_of;
use c25_expr::failure::value_fault;
use c25_expr::symbols::Symbols;
use c25_expr::tree::Expr;
use c25_expr::value::value;
use c25_meaning_assembly::assembly::{Address, Target};
use c25_meaning_common::failure::Failure;
use c25_meaning_common::no_memory::NoMemory;
use c25_meaning_common::relocation::RelocationKind;
use c25_meaning_language::statement::{FaultKind, Field};
use c25_meaning_language::value::{Base, Value};
use c25_meaning_objects::object::RelocationBase;
use c25_statements::fields::{number_in, relocation_of};
use std::alloc::Global;
use std::marker::Model;

/// The numbers of a line's operands, with 0 where a value is an address, and the addresses among the
/// operands.
#[derive(Drop)]
pub(crate) struct OperandValues {
    pub(crate) numbers: Vec<u16>,
    pub(crate) addresses: Vec<Address>,
}

impl Model for OperandValues {
    ghost use Rattle.c25_meaning_assembly.specs.Addresses.{OperandValues};

    ghost Value = { OperandValues };

    ghost view = { λ s. record { numbers = s.numbers.items; addresses = s.addresses.items } };
}

/// The value of an expression, or its fault (22 to 25).
pub(crate) fn valued(symbols: &Symbols, expr: &Expr) -> Result<Value, FaultKind>
    ensures { result ≡ valued symbols.now (tree_of expr.now) }
{
    match value(expr, symbols) {
        Ok(value) => Ok(value),
        Err(fault) => Err(value_fault(fault)),
    }
}

impl OperandValues {
    pub(crate) fn new(alloc: Global) -> OperandValues
        ensures { result ≡ no_operands }
    {
        OperandValues {
            numbers: Vec::new(alloc),
            addresses: Vec::new(alloc),
        }
    }

    pub(crate) fn numbers(&self) -> &[u16]
        ensures { result.now ≡ self.now.numbers }
    {
        self.numbers.as_slice()
    }

    pub(crate) fn addresses(&self) -> &[Address]
        ensures { result.now ≡ self.now.addresses }
    {
        self.addresses.as_slice()
    }

    fn clear(&mut self)
        ensures { self.new ≡ no_operands }
    {
        self.numbers.clear();
        self.addresses.clear();
    }

    fn put_number(&mut self, number: u16) -> Result<(), NoMemory>
        ensures { OnOk result (self.new ≡ with_number number self.old) }
    {
        self.numbers.push(number).map_err(NoMemory::from)
    }

    /// Adds an address, or reports that its field takes none (55).
    fn put_address(
        &mut self,
        kind: Option<RelocationKind>,
        base: RelocationBase,
        addend: i32,
    ) -> Result<(), Failure<FaultKind>>
        ensures { Meets (λ _. self.new) (with_address kind base addend self.old) result }
    {
        let Some(kind) = kind else {
            return Err(Failure::Fault(FaultKind::NotRelocatable));
        };
        let operand = self.numbers.len();
        self.numbers.push(0)?;
        self.addresses.push(Address {
            operand,
            kind,
            base,
            addend,
        })?;
        Ok(())
    }

    /// Adds a value: a number that fits its field, else 53, or an address that its field takes, else 55.
    fn put(&mut self, field: Field, value: Value) -> Result<(), Failure<FaultKind>>
        ensures { Meets (λ _. self.new) (with_value value.base field value.offset self.old) result }
    {
        match value.base {
            Base::Absolute => match number_in(field, value.offset) {
                Ok(number) => self.put_number(number).map_err(Failure::NoMemory),
                Err(fault) => Err(Failure::Fault(fault)),
            },
            Base::Section(number) => {
                let base = RelocationBase::Section(number);
                self.put_address(relocation_of(field), base, value.offset)
            }
            Base::Loaded(number) => {
                let base = RelocationBase::Loaded(number);
                self.put_address(relocation_of(field), base, value.offset)
            }
            Base::External(number) => {
                let base = RelocationBase::External(number);
                self.put_address(relocation_of(field), base, value.offset)
            }
        }
    }

    /// Adds one operand more.
    #[tactic(auto, unfolding(c25_meaning_assembly::specs::Addresses::taken))]
    fn take(
        &mut self,
        target: Target,
        symbols: &Symbols,
        expr: &Expr,
    ) -> Result<(), Failure<FaultKind>>
        ensures { Meets (λ _. self.new) (taken target symbols.now self.old (tree_of expr.now)) result }
    {
        let index = self.numbers.len();
        match valued(symbols, expr) {
            Ok(value) => self.put(field_of(target, index), value),
            Err(fault) => Err(Failure::Fault(fault)),
        }
    }

    /// Replaces the operands of the line before by those of a line, or reports the first one that is wrong.
    pub(crate) fn fill(
        &mut self,
        target: Target,
        symbols: &Symbols,
        exprs: &[Expr],
    ) -> Result<(), Failure<FaultKind>>
        ensures told { Meets (λ _. self.new) (operand_values target symbols.now (trees_of exprs.now)) result }
        ensures fits { OnOk result (FitsTarget target self.new.numbers) }
        ensures within { OnOk result (AreWithin target (target_size target (length exprs.now)) self.new.addresses) }
    {
        self.clear();
        for expr in exprs {
            self.take(target, symbols, expr)?;
        }
        Ok(())
    }
}
