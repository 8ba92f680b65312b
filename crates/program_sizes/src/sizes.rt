//! The sizes of lines, up to just above the greatest size that a program may have. `docs/LANGUAGE.md` says how sizes
//! are counted.

ghost use Rattle.std.specs.Prelude.{◌≡◌, ◌+◌, length, map, sum_by};
ghost use Rattle.occam_parser.specs.Lines.{Constants};
ghost use Rattle.occam_parser.specs.BlockViews.{procedure_of};
ghost use Rattle.occam_parser.specs.OneOrMore.{as_list, one_or_more_of};
ghost use Rattle.occam_parser.specs.Views.{expression_of, term_of};
ghost use Rattle.occam_parser.specs.LineViews.{spelling_of, any_of, place_of, value_of, constant_of, names_of};
ghost use Rattle.occam_parser.specs.LineViews.{declaration_of, action_of, guard_of, replicator_of, formal_of};
ghost use Rattle.program_sizes.specs.LineSizes.{capped, size_of_expression, size_of_term, size_if_any};
ghost use Rattle.program_sizes.specs.LineSizes.{size_in_brackets, size_of_place, size_of_value, size_of_names};
ghost use Rattle.program_sizes.specs.LineSizes.{size_of_declaration, size_of_action, size_of_guard};
ghost use Rattle.program_sizes.specs.LineSizes.{size_of_replicator, size_of_formal, size_of_head};

use occam_parser::{
    Action, Constant, ConstantValue, Declaration, Expr, Formal, Guard, Names, OneOrMore, Operand,
    Operation, Place, Proc, Replicator,
};

/// The size that a program may have at most.
pub const GREATEST_SIZE: u32 = 8_388_608;

/// The sum of two sizes.
pub fn plus(a: u32, b: u32) -> u32
    ensures { result ≡ capped (a + b) }
{
    a.saturating_add(b).min(GREATEST_SIZE + 1)
}

/// The sum of two sizes, with an operator or brackets between.
fn plus_between(a: u32, b: u32) -> u32
    ensures { result ≡ capped (a + (1 + b)) }
{
    plus(a, plus(1, b))
}

/// A count, as a size.
pub fn size_of_count(count: usize) -> u32
    ensures { result ≡ capped count }
{
    count.min(GREATEST_SIZE as usize + 1) as u32
}

// ---- expressions

/// The size of an expression.
#[cycle(size)]
fn size_of_expression(expr: &Expr) -> u32
    ensures { result ≡ capped (size_of_expression (expression_of expr.now)) }
{
    match &*expr.operation {
        Operation::Operand(operand) => size_of_operand(operand),
        Operation::Prefix { operand, .. } => plus(1, size_of_operand(operand)),
        Operation::Pair { left, right, .. } => {
            plus_between(size_of_operand(left), size_of_operand(right))
        }
        Operation::Chain {
            first,
            second,
            others,
            ..
        } => plus(
            plus_between(size_of_operand(first), size_of_operand(second)),
            size_of_others(others),
        ),
    }
}

/// The size of the further operands of a chain, each with an operator.
#[cycle(size)]
fn size_of_others(others: &[Operand]) -> u32
    ensures { result ≡ capped (sum_by (λ t. 1 + size_of_term t) (map term_of others.now)) }
{
    let mut size = 0;
    for other in others {
        size = plus_between(size, size_of_operand(other));
    }
    size
}

/// The size of an operand.
#[cycle(size)]
fn size_of_operand(operand: &Operand) -> u32
    ensures { result ≡ capped (size_of_term (term_of operand.now)) }
{
    match operand {
        Operand::Integer(_)
        | Operand::Character(_)
        | Operand::Truth(_)
        | Operand::MostPos
        | Operand::MostNeg => 1,
        Operand::Name(name) => size_of_count(name.len()),
        Operand::Element { name, subscript } => {
            plus_between(size_of_count(name.len()), size_of_expression(subscript))
        }
        Operand::Bracketed(inner) => plus(1, size_of_expression(inner)),
        Operand::Converted { operand, .. } => plus(1, size_of_operand(operand)),
    }
}

/// The size of an expression, if there is one.
fn size_if_any(expr: &Option<Expr>) -> u32
    ensures { result ≡ capped (size_if_any (any_of expr.now)) }
{
    match expr {
        None => 0,
        Some(expr) => size_of_expression(expr),
    }
}

/// The size of an expression in brackets, if there is one.
fn size_in_brackets(expr: &Option<Expr>) -> u32
    ensures { result ≡ capped (size_in_brackets (any_of expr.now)) }
{
    match expr {
        None => 0,
        Some(expr) => plus(1, size_of_expression(expr)),
    }
}

/// The size of some expressions.
fn size_of_all(exprs: &[Expr]) -> u32
    ensures { result ≡ capped (sum_by size_of_expression (map expression_of exprs.now)) }
{
    let mut size = 0;
    for expr in exprs {
        size = plus(size, size_of_expression(expr));
    }
    size
}

// ---- places and declarations

/// The size of a place.
fn size_of_place(place: &Place) -> u32
    ensures { result ≡ capped (size_of_place (place_of place.now)) }
{
    plus(
        size_of_count(place.name.len()),
        size_in_brackets(&place.subscript),
    )
}

/// The size of the items of a table.
fn size_of_items(items: &OneOrMore<Expr>) -> u32
    ensures { result ≡ capped (sum_by size_of_expression (as_list (one_or_more_of expression_of items.now))) }
{
    plus(size_of_expression(&items.first), size_of_all(&items.others))
}

/// The size of what a constant denotes.
fn size_of_value(value: &ConstantValue) -> u32
    ensures { result ≡ capped (size_of_value (value_of value.now)) }
{
    match value {
        ConstantValue::Scalar(value) => size_of_expression(value),
        ConstantValue::Table { size, items } => {
            plus_between(plus(1, size_of_expression(size)), size_of_items(items))
        }
        ConstantValue::Text { size, text } => plus_between(
            plus(1, size_of_expression(size)),
            size_of_count(text.len()),
        ),
    }
}

/// The size of some names.
fn size_of_spellings(names: &[&[u8]]) -> u32
    ensures { result ≡ capped (sum_by length (map spelling_of names.now)) }
{
    let mut size = 0;
    for name in names {
        size = plus(size, size_of_count(name.len()));
    }
    size
}

/// The size of a line that declares names.
fn size_of_names(names: &Names) -> u32
    ensures { let n = names_of names.now in result ≡ capped (size_of_names n.size (as_list n.names)) }
{
    let first = size_of_count(names.names.first.len());
    let spellings = plus(first, size_of_spellings(&names.names.others));
    plus(1, plus(size_in_brackets(&names.size), spellings))
}

/// The size of the line of a constant.
pub fn size_of_constant(constant: &Constant) -> u32
    ensures { result ≡ capped (size_of_declaration (Constants (constant_of constant.now))) }
{
    let value = size_of_value(&constant.value);
    plus(1, plus(value, size_of_count(constant.name.len())))
}

/// The size of the line of a declaration.
pub fn size_of_declaration(declaration: &Declaration) -> u32
    ensures { result ≡ capped (size_of_declaration (declaration_of declaration.now)) }
{
    match declaration {
        Declaration::Constant(constant) => size_of_constant(constant),
        Declaration::Variables(names) | Declaration::Channels(names) => size_of_names(names),
    }
}

/// The size of the lines of some declarations.
pub fn size_of_declarations(declarations: &[Declaration]) -> u32
    ensures { result ≡ capped (sum_by size_of_declaration (map declaration_of declarations.now)) }
{
    let mut size = 0;
    for declaration in declarations {
        size = plus(size, size_of_declaration(declaration));
    }
    size
}

// ---- other lines

/// The size of the line of an instance.
fn size_of_instance(name: &[u8], actuals: &[Expr]) -> u32
    ensures { result
        ≡ capped (1 + (length name.now + (1 + sum_by size_of_expression (map expression_of actuals.now)))) }
{
    let passed = plus_between(size_of_count(name.len()), size_of_all(actuals));
    plus(1, passed)
}

/// The size of the line of an action.
pub fn size_of_action(action: &Action) -> u32
    ensures { result ≡ capped (size_of_action (action_of action.now)) }
{
    match action {
        Action::Skip | Action::Stop => 1,
        Action::Assign { target, value } => {
            plus(1, plus(size_of_place(target), size_of_expression(value)))
        }
        Action::Input { channel, target } => {
            plus(1, plus(size_of_place(channel), size_of_place(target)))
        }
        Action::Output { channel, value } => {
            plus(1, plus(size_of_place(channel), size_of_expression(value)))
        }
        Action::Instance { name, actuals } => size_of_instance(name, actuals),
    }
}

/// The size of the line of a choice.
pub fn size_of_condition(condition: &Expr) -> u32
    ensures { result ≡ capped (1 + size_of_expression (expression_of condition.now)) }
{
    plus(1, size_of_expression(condition))
}

/// The size of the line of a guard.
pub fn size_of_guard(guard: &Guard) -> u32
    ensures { result ≡ capped (size_of_guard (guard_of guard.now)) }
{
    match guard {
        Guard::Skip { condition } => size_of_condition(condition),
        Guard::Input {
            condition,
            channel,
            target,
        } => {
            let places = plus(size_of_place(channel), size_of_place(target));
            plus(1, plus(size_if_any(condition), places))
        }
    }
}

/// The size of the line of a replicator.
pub fn size_of_replicator(replicator: &Replicator) -> u32
    ensures { result ≡ capped (size_of_replicator (replicator_of replicator.now)) }
{
    let base = size_of_expression(&replicator.base);
    let numbers = plus(base, size_of_expression(&replicator.count));
    plus(1, plus(size_of_count(replicator.name.len()), numbers))
}

/// The size of a formal.
fn size_of_formal(formal: &Formal) -> u32
    ensures { result ≡ capped (size_of_formal (formal_of formal.now)) }
{
    plus(
        size_of_count(formal.name.len()),
        size_in_brackets(&formal.size),
    )
}

/// The size of some formals.
fn size_of_formals(formals: &[Formal]) -> u32
    ensures { result ≡ capped (sum_by size_of_formal (map formal_of formals.now)) }
{
    let mut size = 0;
    for formal in formals {
        size = plus(size, size_of_formal(formal));
    }
    size
}

/// The size of the first line of a procedure.
pub fn size_of_head(proc: &Proc) -> u32
    ensures { result ≡ capped (size_of_head (procedure_of proc.now).head) }
{
    let formals = plus_between(
        size_of_count(proc.name.len()),
        size_of_formals(&proc.formals),
    );
    plus(1, formals)
}
