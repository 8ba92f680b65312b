//! Writing the code of expressions: each function appends the code that its tree has in its setting. If one fails, some
//! pieces more may have come.

ghost use Rattle.std.specs.Prelude.{◌≡◌, ◌++◌, ◌∷◌, [], IfOk, None, map, option_map};
ghost use Rattle.occam_parser.specs.Views.{expression_of, operation_of, term_of};
ghost use Rattle.scalar_ranges.specs.Entries.{meaning_in};
ghost use Rattle.scalar_ranges.specs.Bounds.{bound_of, range_found};
ghost use Rattle.scalar_ranges.specs.FrontViews.{seen_front};
ghost use Rattle.line_pieces.specs.Homes.{home_of};
ghost use Rattle.line_pieces.specs.SettingViews.{entries_in, homes_in, expression_in, term_in, onto_in, joined_in};
ghost use Rattle.line_pieces.specs.SettingViews.{on_constant_in, subscript_in, first_in};
ghost use Rattle.line_pieces.specs.SettingViews.{others_in, operands_in, value_in, front_at};
ghost use Rattle.line_pieces.specs.SettingViews.{both_in, either_in, first_two_in};
ghost use Rattle.line_pieces.specs.Expressions.{single, address_code, element_of_words, element_of_table};
ghost use Rattle.line_pieces.specs.Expressions.{element_code, without};

use crate::expressions::{
    Pushes, added_by, chain_operation, comes_last, covered, is_byte_reference, is_small_term,
    offset_of, or_zero, pushes_of, single,
};
use crate::home::Home;
use crate::listing::Listing;
use crate::noting::Access;
use crate::setting::{Setting, word_after};
use code_pieces::operations;
use occam_parser::{ChainOperator, Expr, Operand, Operation, ValueType};
use prefix_decoder::Fun;
use scalar_ranges::{Front, Meaning, front_of, range_of, read_operand, value_of};
use std::alloc::AllocError;
use std::rc::Rc;

impl Listing {
    /// An expression.
    #[cycle(write)]
    pub fn write_expression(&mut self, setting: Setting, expr: &Expr) -> Result<(), AllocError>
        ensures { IfOk result (λ _. self.new ≡ self.old ++ expression_in setting.entry (expression_of expr.now)) }
    {
        match value_of(setting.scope, expr) {
            Some(value) => self.constant(value),
            None => {
                let front = front_of(setting.scope, expr);
                self.write_operation(setting, front, &expr.operation)
            }
        }
    }

    /// An operation that is no constant, with the front that it has if it is a chain.
    #[cycle(write)]
    fn write_operation(
        &mut self,
        setting: Setting,
        front: Option<Front>,
        operation: &Operation,
    ) -> Result<(), AllocError>
        requires varies { value_in setting (operation_of operation.now) ≡ None }
        requires front { option_map seen_front front ≡ front_at setting (operation_of operation.now) }
        ensures { IfOk result (λ _. self.new ≡ self.old ++ expression_in setting.entry (operation_of operation.now)) }
    {
        match operation {
            Operation::Operand(operand) => self.write_operand(setting, operand),
            Operation::Prefix { operator, operand } => {
                self.write_operand(setting, operand)?;
                self.write_prefix(*operator)
            }
            Operation::Pair {
                operator,
                left,
                right,
            } => {
                let left = read_operand(setting.scope, left).value();
                let right = read_operand(setting.scope, right).value();
                self.write_operands(setting, pushes_of(*operator, left, right), operation)?;
                self.write_pair(*operator, left, right)
            }
            Operation::Chain {
                operator,
                others,
                ..
            } => match covered(front, 2) {
                Some(value) => {
                    self.constant(value)?;
                    self.write_others(setting, front, *operator, others)
                }
                None => {
                    self.write_first_two(setting, operation)?;
                    self.write_others(setting, front, *operator, others)
                }
            },
        }
    }

    /// The first two operands of a chain, with their operation. Another operation has none.
    #[cycle(write)]
    fn write_first_two(&mut self, setting: Setting, operation: &Operation) -> Result<(), AllocError>
        ensures { IfOk result (λ _. self.new ≡ self.old ++ first_two_in setting.entry (operation_of operation.now)) }
    {
        let Operation::Chain {
            operator,
            first,
            second,
            ..
        } = operation
        else {
            return Ok(());
        };
        match added_by(*operator, read_operand(setting.scope, second).value()) {
            Some(value) => {
                self.write_operand(setting, first)?;
                self.direct(Fun::AddConstant, value)
            }
            None => {
                self.write_either(setting, operation)?;
                self.operate(chain_operation(*operator))
            }
        }
    }

    /// The operands of an operator between two. Another operation has none.
    #[cycle(write)]
    fn write_operands(
        &mut self,
        setting: Setting,
        pushes: Pushes,
        operation: &Operation,
    ) -> Result<(), AllocError>
        ensures { IfOk result (λ _. self.new
            ≡ self.old ++ operands_in setting.entry pushes (operation_of operation.now)) }
    {
        match (operation, pushes) {
            (Operation::Pair { .. }, Pushes::Both) => self.write_both(setting, operation, true),
            (Operation::Pair { .. }, Pushes::Either) => self.write_both(setting, operation, false),
            (Operation::Pair { left, right, .. }, Pushes::Exchanged) => {
                if comes_last(setting.scope, right, left) {
                    self.write_operand(setting, left)?;
                    self.write_operand(setting, right)?;
                    return self.exchange(true);
                }
                self.write_operand(setting, right)?;
                self.write_onto(setting, left, true)
            }
            (Operation::Pair { left, .. }, Pushes::Left) => self.write_operand(setting, left),
            (Operation::Pair { right, .. }, Pushes::Right) => self.write_operand(setting, right),
            (Operation::Pair { left, .. }, Pushes::OnConstant(value)) => {
                self.write_on_constant(setting, value, left)
            }
            (Operation::Pair { left, .. }, Pushes::BelowConstant(value)) => {
                self.write_operand(setting, left)?;
                self.constant(value)
            }
            _ => Ok(()),
        }
    }

    /// Both operands of an operator between two, the right one on the left one. A left one that is a leaf comes last if
    /// the right one takes three registers. Another operation has none.
    #[cycle(write)]
    fn write_both(
        &mut self,
        setting: Setting,
        operation: &Operation,
        in_order: bool,
    ) -> Result<(), AllocError>
        ensures { IfOk result (λ _. self.new
            ≡ self.old ++ both_in in_order setting.entry (operation_of operation.now)) }
    {
        let Operation::Pair { left, right, .. } = operation else {
            return Ok(());
        };
        if comes_last(setting.scope, left, right) {
            self.write_operand(setting, right)?;
            self.write_operand(setting, left)?;
            return self.exchange(in_order);
        }
        self.write_operand(setting, left)?;
        self.write_onto(setting, right, in_order)
    }

    /// The first two operands of a chain, in any order. Another operation has none.
    #[cycle(write)]
    fn write_either(&mut self, setting: Setting, operation: &Operation) -> Result<(), AllocError>
        ensures { IfOk result (λ _. self.new ≡ self.old ++ either_in setting.entry (operation_of operation.now)) }
    {
        let Operation::Chain { first, second, .. } = operation else {
            return Ok(());
        };
        if comes_last(setting.scope, first, second) {
            self.write_operand(setting, second)?;
            return self.write_operand(setting, first);
        }
        self.write_operand(setting, first)?;
        self.write_onto(setting, second, false)
    }

    /// An operand, on a constant.
    #[cycle(write)]
    fn write_on_constant(
        &mut self,
        setting: Setting,
        value: i32,
        operand: &Operand,
    ) -> Result<(), AllocError>
        ensures { IfOk result (λ _. self.new ≡ self.old ++ on_constant_in setting.entry value (term_of operand.now)) }
    {
        if is_small_term(setting.scope, operand) {
            self.constant(value)?;
            return self.write_operand(setting, operand);
        }
        self.write_operand(setting, operand)?;
        self.constant(value)?;
        self.operate(operations::REVERSE)
    }

    /// A right operand, on the left one that is in A, or below it where their order does not matter.
    #[cycle(write)]
    fn write_onto(
        &mut self,
        setting: Setting,
        right: &Operand,
        in_order: bool,
    ) -> Result<(), AllocError>
        ensures { IfOk result (λ _. self.new ≡ self.old ++ onto_in in_order setting.entry (term_of right.now)) }
    {
        let above = setting.above();
        if is_small_term(setting.scope, right) {
            return self.write_operand(above, right);
        }
        self.store(setting.top)?;
        self.write_operand(above, right)?;
        self.push_back(setting.top, in_order)
    }

    /// The operands of a chain after the first two.
    #[cycle(write)]
    fn write_others(
        &mut self,
        setting: Setting,
        front: Option<Front>,
        operator: ChainOperator,
        others: &[Operand],
    ) -> Result<(), AllocError>
        ensures { IfOk result (λ _. self.new ≡ self.old ++ others_in setting.entry operator
            (option_map seen_front front) 2 (map term_of others.now)) }
    {
        for (place, other) in others.iter().enumerate() {
            self.write_joined(setting, covered(front, place + 3), operator, other)?;
        }
        Ok(())
    }

    /// An operand of a chain, on those before it that are in A; nothing if the value of the front is that of both.
    #[cycle(write)]
    fn write_joined(
        &mut self,
        setting: Setting,
        known: Option<i32>,
        operator: ChainOperator,
        operand: &Operand,
    ) -> Result<(), AllocError>
        ensures { IfOk result (λ _. self.new ≡ self.old
            ++ joined_in setting.entry operator known (term_of operand.now)) }
    {
        if known.is_some() {
            return Ok(());
        }
        match added_by(operator, read_operand(setting.scope, operand).value()) {
            Some(value) => self.direct(Fun::AddConstant, value),
            None => {
                self.write_onto(setting, operand, false)?;
                self.operate(chain_operation(operator))
            }
        }
    }

    /// An operand.
    #[cycle(write)]
    fn write_operand(&mut self, setting: Setting, operand: &Operand) -> Result<(), AllocError>
        ensures { IfOk result (λ _. self.new ≡ self.old ++ term_in setting.entry (term_of operand.now)) }
    {
        match operand {
            Operand::Integer(value) => self.constant(*value),
            Operand::Character(byte) => self.constant(i32::from(*byte)),
            Operand::Truth(holds) => self.constant(i32::from(*holds)),
            Operand::MostPos => self.constant(i32::MAX),
            Operand::MostNeg => self.constant(i32::MIN),
            Operand::Name(name) => match read_operand(setting.scope, operand).value() {
                Some(value) => self.constant(value),
                None => {
                    let is_reference = is_byte_reference(setting.scope.meaning(name));
                    self.write_scalar(is_reference, setting.home(name))
                }
            },
            Operand::Element { name, subscript } => self.write_element(setting, name, subscript),
            Operand::Bracketed(inner) => self.write_expression(setting, inner),
            Operand::Converted { operand, .. } => self.write_operand(setting, operand),
        }
    }

    /// An element of an array or of a table.
    #[cycle(write)]
    fn write_element(
        &mut self,
        setting: Setting,
        name: &[u8],
        subscript: &Expr,
    ) -> Result<(), AllocError>
        ensures { IfOk result (λ _. self.new ≡ self.old
            ++ element_code (home_of (homes_in setting.entry) (entries_in setting.entry) name.now)
            (meaning_in name.now (entries_in setting.entry))
            (single (range_found (bound_of (entries_in setting.entry) (expression_of subscript.now))))
            (subscript_in setting.entry (expression_of subscript.now))) }
    {
        match (setting.home(name), setting.scope.meaning(name)) {
            (
                Some(Home::Word(word) | Home::Passed(word)),
                Some(Meaning::Array { value_type, .. }),
            ) => self.write_element_of_words(setting, value_type, *word, subscript),
            (Some(Home::Table(values)), _) => {
                self.write_element_of_table(setting, values, subscript)
            }
            _ => Ok(()),
        }
    }

    /// An element of a table.
    #[cycle(write)]
    fn write_element_of_table(
        &mut self,
        setting: Setting,
        values: &Rc<Vec<i32>>,
        subscript: &Expr,
    ) -> Result<(), AllocError>
        ensures { IfOk result (λ _. self.new ≡ self.old ++ element_of_table values.now.value.items
            (single (range_found (bound_of (entries_in setting.entry) (expression_of subscript.now))))
            (subscript_in setting.entry (expression_of subscript.now))) }
    {
        match single(range_of(setting.scope, subscript)) {
            Some(number) => {
                self.table(values)?;
                self.direct(Fun::LoadNonLocal, number)
            }
            None => {
                let offset = offset_of(setting.scope, subscript);
                self.write_without(setting, offset, subscript)?;
                self.table(values)?;
                self.operate(operations::WORD_SUBSCRIPT)?;
                self.direct(Fun::LoadNonLocal, or_zero(offset))
            }
        }
    }

    /// A subscript without the constant that it ends with, if there is one.
    #[cycle(write)]
    pub(crate) fn write_without(
        &mut self,
        setting: Setting,
        offset: Option<i32>,
        subscript: &Expr,
    ) -> Result<(), AllocError>
        ensures { IfOk result (λ _. self.new ≡ self.old ++ without offset
            (expression_in setting.entry (expression_of subscript.now))
            (first_in setting.entry (expression_of subscript.now))) }
    {
        match offset {
            Some(_) => self.write_first(setting, &subscript.operation),
            None => self.write_expression(setting, subscript),
        }
    }

    /// The first operand of a chain. Another operation has none.
    #[cycle(write)]
    fn write_first(&mut self, setting: Setting, operation: &Operation) -> Result<(), AllocError>
        ensures { IfOk result (λ _. self.new ≡ self.old ++ first_in setting.entry (operation_of operation.now)) }
    {
        match operation {
            Operation::Chain { first, .. } => self.write_operand(setting, first),
            Operation::Operand(_) | Operation::Prefix { .. } | Operation::Pair { .. } => Ok(()),
        }
    }

    /// An element of an array whose words begin with this one.
    #[cycle(write)]
    fn write_element_of_words(
        &mut self,
        setting: Setting,
        value_type: ValueType,
        word: u32,
        subscript: &Expr,
    ) -> Result<(), AllocError>
        ensures { IfOk result (λ _. self.new ≡ self.old ++ element_of_words value_type word
            (single (range_found (bound_of (entries_in setting.entry) (expression_of subscript.now))))
            (subscript_in setting.entry (expression_of subscript.now))) }
    {
        self.notes.note_word(word, Access::Reads)?;
        match (value_type, single(range_of(setting.scope, subscript))) {
            (ValueType::Int, Some(number)) => self.load(word_after(word, number.unsigned_abs())),
            (ValueType::Int, None) => {
                let offset = offset_of(setting.scope, subscript);
                self.write_without(setting, offset, subscript)?;
                self.write_subscript(value_type, word)?;
                self.direct(Fun::LoadNonLocal, or_zero(offset))
            }
            (ValueType::Byte, _) => {
                self.write_address(setting, value_type, word, subscript)?;
                self.operate(operations::LOAD_BYTE)
            }
        }
    }

    /// The address of an element of an array whose words begin with this one.
    #[cycle(write)]
    pub(crate) fn write_address(
        &mut self,
        setting: Setting,
        value_type: ValueType,
        word: u32,
        subscript: &Expr,
    ) -> Result<(), AllocError>
        ensures { IfOk result (λ _. self.new ≡ self.old ++ address_code value_type word
            (single (range_found (bound_of (entries_in setting.entry) (expression_of subscript.now))))
            (expression_in setting.entry (expression_of subscript.now))) }
    {
        match single(range_of(setting.scope, subscript)) {
            Some(number) => self.write_known_address(value_type, word, number.unsigned_abs()),
            None => {
                self.write_expression(setting, subscript)?;
                self.write_subscript(value_type, word)
            }
        }
    }
}
