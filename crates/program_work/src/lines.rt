//! How often lines are read, as far as a `u32` goes.

ghost use Rattle.std.specs.Prelude.{◌≡◌, ◌+◌, length, map, sum_by};
ghost use Rattle.occam_parser.specs.Lines.{Constants};
ghost use Rattle.occam_parser.specs.OneOrMore.{as_list, one_or_more_of};
ghost use Rattle.occam_parser.specs.Views.{expression_of};
ghost use Rattle.occam_parser.specs.LineViews.{spelling_of, any_of, place_of, value_of, constant_of, names_of};
ghost use Rattle.occam_parser.specs.LineViews.{declaration_of, action_of, guard_of, replicator_of};
ghost use Rattle.program_sizes.specs.LineSizes.{size_of_expression, size_if_any, size_in_brackets, size_of_place};
ghost use Rattle.program_sizes.specs.LineSizes.{size_of_value, size_of_names, size_of_declaration, size_of_action};
ghost use Rattle.program_sizes.specs.LineSizes.{size_of_guard, size_of_replicator};
ghost use Rattle.program_work.specs.Readings.{capped, again_in, again_if_any, again_in_place, again_in_value};
ghost use Rattle.program_work.specs.Readings.{again_in_declaration, again_in_action, again_in_guard};
ghost use Rattle.program_work.specs.Readings.{again_in_replicator, reading_of_declaration, reading_of_action};
ghost use Rattle.program_work.specs.Readings.{reading_of_condition, reading_of_guard, reading_of_replicator};

use crate::reading::{Reading, read_expression, size_of_count};
use occam_parser::{
    Action, Constant, ConstantValue, Declaration, Expr, Guard, Names, OneOrMore, Place, Replicator,
};

// ---- what lines are made of

/// An expression, if there is one.
fn read_if_any(expr: &Option<Expr>) -> Reading
    ensures size { result.size ≡ capped (size_if_any (any_of expr.now)) }
    ensures again { result.again ≡ capped (again_if_any (any_of expr.now)) }
{
    match expr {
        None => Reading::once(0),
        Some(expr) => read_expression(expr),
    }
}

/// An expression in the brackets of a line, if there is one.
fn read_in_brackets(expr: &Option<Expr>) -> Reading
    ensures size { result.size ≡ capped (size_in_brackets (any_of expr.now)) }
    ensures again { result.again ≡ capped (again_if_any (any_of expr.now)) }
{
    match expr {
        None => Reading::once(0),
        Some(expr) => read_expression(expr).marked(),
    }
}

/// Some expressions.
fn read_all(exprs: &[Expr]) -> Reading
    ensures size { result.size ≡ capped (sum_by size_of_expression (map expression_of exprs.now)) }
    ensures again { result.again ≡ capped (sum_by again_in (map expression_of exprs.now)) }
{
    let mut reading = Reading::once(0);
    for expr in exprs {
        reading = reading.and(read_expression(expr));
    }
    reading
}

/// A place.
fn read_place(place: &Place) -> Reading
    ensures size { result.size ≡ capped (size_of_place (place_of place.now)) }
    ensures again { result.again ≡ capped (again_in_place (place_of place.now)) }
{
    Reading::of_name(place.name).and(read_in_brackets(&place.subscript))
}

/// The items of a table.
fn read_items(items: &OneOrMore<Expr>) -> Reading
    ensures size { result.size
        ≡ capped (sum_by size_of_expression (as_list (one_or_more_of expression_of items.now))) }
    ensures again { result.again ≡ capped (sum_by again_in (as_list (one_or_more_of expression_of items.now))) }
{
    read_expression(&items.first).and(read_all(&items.others))
}

/// What a constant denotes.
fn read_value(value: &ConstantValue) -> Reading
    ensures size { result.size ≡ capped (size_of_value (value_of value.now)) }
    ensures again { result.again ≡ capped (again_in_value (value_of value.now)) }
{
    match value {
        ConstantValue::Scalar(value) => read_expression(value),
        ConstantValue::Table { size, items } => {
            read_expression(size)
                .marked()
                .and(read_items(items).marked())
        }
        ConstantValue::Text { size, text } => {
            let bytes = Reading::once(size_of_count(text.len()));
            read_expression(size).marked().and(bytes.marked())
        }
    }
}

/// The size of some names.
fn size_of_spellings(names: &[&[u8]]) -> u32
    ensures { result ≡ capped (sum_by length (map spelling_of names.now)) }
{
    let mut size: u32 = 0;
    for name in names {
        size = size.saturating_add(size_of_count(name.len()));
    }
    size
}

// ---- lines

/// A line that declares names.
fn read_names(names: &Names) -> Reading
    ensures size { let n = names_of names.now in result.size ≡ capped (size_of_names n.size (as_list n.names)) }
    ensures again { result.again ≡ capped (again_if_any (names_of names.now).size) }
{
    let first = Reading::of_name(names.names.first);
    let others = Reading::once(size_of_spellings(&names.names.others));
    read_in_brackets(&names.size)
        .and(first.and(others))
        .marked()
}

/// The line of a constant.
fn read_constant(constant: &Constant) -> Reading
    ensures size { result.size ≡ capped (size_of_declaration (Constants (constant_of constant.now))) }
    ensures again { result.again ≡ capped (again_in_declaration (Constants (constant_of constant.now))) }
{
    read_value(&constant.value)
        .and(Reading::of_name(constant.name))
        .marked()
}

/// The line of a declaration.
pub(crate) fn read_declaration(declaration: &Declaration) -> Reading
    ensures size { result.size ≡ capped (size_of_declaration (declaration_of declaration.now)) }
    ensures again { result.again ≡ capped (again_in_declaration (declaration_of declaration.now)) }
{
    match declaration {
        Declaration::Constant(constant) => read_constant(constant),
        Declaration::Variables(names) | Declaration::Channels(names) => read_names(names),
    }
}

/// The line of an action.
pub(crate) fn read_action(action: &Action) -> Reading
    ensures size { result.size ≡ capped (size_of_action (action_of action.now)) }
    ensures again { result.again ≡ capped (again_in_action (action_of action.now)) }
{
    match action {
        Action::Skip | Action::Stop => Reading::once(1),
        Action::Assign { target, value } => read_place(target).and(read_expression(value)).marked(),
        Action::Input { channel, target } => read_place(channel).and(read_place(target)).marked(),
        Action::Output { channel, value } => {
            read_place(channel).and(read_expression(value)).marked()
        }
        Action::Instance { name, actuals } => {
            Reading::of_name(name)
                .and(read_all(actuals).marked())
                .marked()
        }
    }
}

/// The line of a choice.
pub(crate) fn read_condition(condition: &Expr) -> Reading
    ensures size { result.size ≡ capped (1 + size_of_expression (expression_of condition.now)) }
    ensures again { result.again ≡ capped (again_in (expression_of condition.now)) }
{
    read_expression(condition).marked()
}

/// The line of a guard.
pub(crate) fn read_guard(guard: &Guard) -> Reading
    ensures size { result.size ≡ capped (size_of_guard (guard_of guard.now)) }
    ensures again { result.again ≡ capped (again_in_guard (guard_of guard.now)) }
{
    match guard {
        Guard::Skip { condition } => read_condition(condition),
        Guard::Input {
            condition,
            channel,
            target,
        } => {
            let places = read_place(channel).and(read_place(target));
            read_if_any(condition).and(places).marked()
        }
    }
}

/// The line of a replicator.
pub(crate) fn read_replicator(replicator: &Replicator) -> Reading
    ensures size { result.size ≡ capped (size_of_replicator (replicator_of replicator.now)) }
    ensures again { result.again ≡ capped (again_in_replicator (replicator_of replicator.now)) }
{
    let numbers = read_expression(&replicator.base).and(read_expression(&replicator.count));
    Reading::of_name(replicator.name).and(numbers).marked()
}

// ---- how much is read of a line

/// How much is read of the line of a constant, as far as a `u32` goes.
pub fn reading_of_constant(constant: &Constant) -> u32
    ensures { result ≡ capped (reading_of_declaration (Constants (constant_of constant.now))) }
{
    read_constant(constant).whole()
}

/// How much is read of the line of a declaration, as far as a `u32` goes.
pub fn reading_of_declaration(declaration: &Declaration) -> u32
    ensures { result ≡ capped (reading_of_declaration (declaration_of declaration.now)) }
{
    read_declaration(declaration).whole()
}

/// How much is read of the line of an action, as far as a `u32` goes.
pub fn reading_of_action(action: &Action) -> u32
    ensures { result ≡ capped (reading_of_action (action_of action.now)) }
{
    read_action(action).whole()
}

/// How much is read of the line of a choice, as far as a `u32` goes.
pub fn reading_of_condition(condition: &Expr) -> u32
    ensures { result ≡ capped (reading_of_condition (expression_of condition.now)) }
{
    read_condition(condition).whole()
}

/// How much is read of the line of a guard, as far as a `u32` goes.
pub fn reading_of_guard(guard: &Guard) -> u32
    ensures { result ≡ capped (reading_of_guard (guard_of guard.now)) }
{
    read_guard(guard).whole()
}

/// How much is read of the line of a replicator, as far as a `u32` goes.
pub fn reading_of_replicator(replicator: &Replicator) -> u32
    ensures { result ≡ capped (reading_of_replicator (replicator_of replicator.now)) }
{
    read_replicator(replicator).whole()
}
