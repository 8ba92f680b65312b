//! Programs printed again as sources.

use crate::tokens::{write_character, write_name, write_text};
use conformance::Answer;
use occam_parser::{
    Action, ArithmeticChain, ArithmeticPair, Body, Branch, ChainOperator, Choice, Comparison,
    Constant, ConstantValue, Construct, Declaration, Expr, Formal, FormalKind, Guard, Item, Logic,
    Names, Operand, Operation, PairOperator, Place, PrefixOperator, Proc, Process, Replicator,
    ValueType,
};

/// The items of a program as a source.
pub(crate) fn write_items(out: &mut Answer, items: &[Item]) {
    for item in items {
        match item {
            Item::Constant(constant) => write_constant(out, constant),
            Item::Proc(proc) => write_proc(out, proc),
        }
    }
}

fn write_proc(out: &mut Answer, proc: &Proc) {
    out.put("PROC ");
    write_name(out, proc.name);
    out.put("(");
    for (i, formal) in proc.formals.iter().enumerate() {
        write_comma(out, i);
        write_formal(out, formal);
    }
    out.put(")\n");
    write_process(out, 1, &proc.body);
    out.put(":\n");
}

fn write_comma(out: &mut Answer, index: usize) {
    if index > 0 {
        out.put(", ");
    }
}

fn write_type(out: &mut Answer, value_type: ValueType) {
    match value_type {
        ValueType::Int => out.put("INT"),
        ValueType::Byte => out.put("BYTE"),
    }
}

fn write_in_brackets(out: &mut Answer, expr: &Expr) {
    out.put("[");
    write_expr(out, expr);
    out.put("]");
}

fn write_size(out: &mut Answer, size: &Option<Expr>) {
    if let Some(size) = size {
        write_in_brackets(out, size);
    }
}

fn write_constant(out: &mut Answer, constant: &Constant) {
    out.put("VAL ");
    match &constant.value {
        ConstantValue::Scalar(_) => {}
        ConstantValue::Table { size, .. } | ConstantValue::Text { size, .. } => {
            write_in_brackets(out, size);
        }
    }
    write_type(out, constant.value_type);
    out.put(" ");
    write_name(out, constant.name);
    out.put(" IS ");
    match &constant.value {
        ConstantValue::Scalar(value) => write_expr(out, value),
        ConstantValue::Table { items, .. } => {
            out.put("[");
            write_expr(out, &items.first);
            for item in &items.others {
                out.put(", ");
                write_expr(out, item);
            }
            out.put("]");
        }
        ConstantValue::Text { text, .. } => {
            out.put("\"");
            write_text(out, *text);
            out.put("\"");
        }
    }
    out.put(":\n");
}

fn write_formal(out: &mut Answer, formal: &Formal) {
    if formal.kind == FormalKind::Value {
        out.put("VAL ");
    }
    write_size(out, &formal.size);
    if formal.kind == FormalKind::Channel {
        out.put("CHAN OF ");
    }
    write_type(out, formal.value_type);
    out.put(" ");
    write_name(out, formal.name)
}

fn write_indent(out: &mut Answer, level: u32) {
    for _ in 0..level {
        out.put("  ");
    }
}

fn write_names(out: &mut Answer, words: &str, names: &Names) {
    write_size(out, &names.size);
    out.put(words);
    write_type(out, names.value_type);
    out.put(" ");
    write_name(out, names.names.first);
    for name in &names.names.others {
        out.put(", ");
        write_name(out, name);
    }
    out.put(":\n");
}

fn write_declaration(out: &mut Answer, declaration: &Declaration) {
    match declaration {
        Declaration::Constant(constant) => write_constant(out, constant),
        Declaration::Variables(names) => write_names(out, "", names),
        Declaration::Channels(names) => write_names(out, "CHAN OF ", names),
    }
}

#[cycle(write_process)]
fn write_process(out: &mut Answer, level: u32, process: &Process) {
    for declaration in &process.declarations {
        write_indent(out, level);
        write_declaration(out, declaration);
    }
    write_indent(out, level);
    write_construct(out, level.saturating_add(1), &process.construct)
}

/// The line of its own that a construct begins with, if there is one.
fn head_of(construct: &Construct) -> &'static str {
    match construct {
        Construct::Seq(_) => "SEQ\n",
        Construct::Par(_) => "PAR\n",
        Construct::If(_) => "IF\n",
        Construct::Alt(_) => "ALT\n",
        Construct::Action(_) | Construct::Replicated { .. } => "",
    }
}

/// A construct whose components are at a level.
#[cycle(write_process)]
fn write_construct(out: &mut Answer, level: u32, construct: &Construct) {
    out.put(head_of(construct));
    match construct {
        Construct::Action(action) => write_action(out, action),
        Construct::Seq(components) | Construct::Par(components) => {
            for component in components {
                write_process(out, level, component);
            }
        }
        Construct::If(choices) => {
            for choice in choices {
                write_choice(out, level, choice);
            }
        }
        Construct::Alt(branches) => {
            for branch in branches {
                write_branch(out, level, branch);
            }
        }
        Construct::Replicated { replicator, body } => {
            write_replicated(out, level, replicator, body);
        }
    }
}

/// The word that a block under a replicator begins with.
fn word_of(body: &Body) -> &'static str {
    match body {
        Body::Seq(_) => "SEQ ",
        Body::Par(_) => "PAR ",
        Body::If(_) => "IF ",
        Body::Alt(_) => "ALT ",
    }
}

#[cycle(write_process)]
fn write_replicated(out: &mut Answer, level: u32, replicator: &Replicator, body: &Body) {
    write_head(out, word_of(body), replicator);
    match body {
        Body::Seq(process) | Body::Par(process) => write_process(out, level, process),
        Body::If(choice) => write_choice(out, level, choice),
        Body::Alt(branch) => write_branch(out, level, branch),
    }
}

#[cycle(write_process)]
fn write_choice(out: &mut Answer, level: u32, choice: &Choice) {
    write_indent(out, level);
    write_expr(out, &choice.condition);
    out.put("\n");
    write_process(out, level.saturating_add(1), &choice.process);
}

#[cycle(write_process)]
fn write_branch(out: &mut Answer, level: u32, branch: &Branch) {
    write_indent(out, level);
    write_guard(out, &branch.guard);
    write_process(out, level.saturating_add(1), &branch.process);
}

/// The line that a block under a replicator begins with.
fn write_head(out: &mut Answer, word: &str, replicator: &Replicator) {
    out.put(word);
    write_name(out, replicator.name);
    out.put(" = ");
    write_expr(out, &replicator.base);
    out.put(" FOR ");
    write_expr(out, &replicator.count);
    out.put("\n");
}

fn write_place(out: &mut Answer, place: &Place) {
    write_name(out, place.name);
    write_size(out, &place.subscript)
}

fn write_value(out: &mut Answer, place: &Place, sign: &str, value: &Expr) {
    write_place(out, place);
    out.put(sign);
    write_expr(out, value);
}

fn write_input(out: &mut Answer, channel: &Place, target: &Place) {
    write_place(out, channel);
    out.put(" ? ");
    write_place(out, target);
}

fn write_action(out: &mut Answer, action: &Action) {
    match action {
        Action::Skip => out.put("SKIP"),
        Action::Stop => out.put("STOP"),
        Action::Assign { target, value } => write_value(out, target, " := ", value),
        Action::Input { channel, target } => write_input(out, channel, target),
        Action::Output { channel, value } => write_value(out, channel, " ! ", value),
        Action::Instance { name, actuals } => {
            write_name(out, name);
            out.put("(");
            write_exprs(out, actuals);
            out.put(")");
        }
    }
    out.put("\n");
}

fn write_guard(out: &mut Answer, guard: &Guard) {
    match guard {
        Guard::Input {
            condition,
            channel,
            target,
        } => {
            if let Some(condition) = condition {
                write_expr(out, condition);
                out.put(" & ");
            }
            write_input(out, channel, target);
        }
        Guard::Skip { condition } => {
            write_expr(out, condition);
            out.put(" & SKIP");
        }
    }
    out.put("\n");
}

fn write_exprs(out: &mut Answer, exprs: &[Expr]) {
    for (i, expr) in exprs.iter().enumerate() {
        write_comma(out, i);
        write_expr(out, expr);
    }
}

#[cycle(write_expr)]
fn write_expr(out: &mut Answer, expr: &Expr) {
    match &*expr.operation {
        Operation::Operand(operand) => write_operand(out, operand),
        Operation::Prefix { operator, operand } => {
            match operator {
                PrefixOperator::Negate => out.put("-"),
                PrefixOperator::BitNot => out.put("~"),
                PrefixOperator::Not => out.put("NOT "),
            }
            write_operand(out, operand);
        }
        Operation::Pair {
            operator,
            left,
            right,
        } => {
            write_operand(out, left);
            out.put(pair_sign(*operator));
            write_operand(out, right);
        }
        Operation::Chain {
            operator,
            first,
            second,
            others,
        } => {
            write_operand(out, first);
            out.put(chain_sign(*operator));
            write_operand(out, second);
            for other in others {
                out.put(chain_sign(*operator));
                write_operand(out, other);
            }
        }
    }
}

fn pair_sign(operator: PairOperator) -> &'static str {
    match operator {
        PairOperator::Arithmetic(ArithmeticPair::Subtract) => " - ",
        PairOperator::Arithmetic(ArithmeticPair::Divide) => " / ",
        PairOperator::Arithmetic(ArithmeticPair::Remainder) => " \\ ",
        PairOperator::Arithmetic(ArithmeticPair::Minus) => " MINUS ",
        PairOperator::Arithmetic(ArithmeticPair::ShiftLeft) => " << ",
        PairOperator::Arithmetic(ArithmeticPair::ShiftRight) => " >> ",
        PairOperator::Comparison(Comparison::Equal) => " = ",
        PairOperator::Comparison(Comparison::NotEqual) => " <> ",
        PairOperator::Comparison(Comparison::Less) => " < ",
        PairOperator::Comparison(Comparison::Greater) => " > ",
        PairOperator::Comparison(Comparison::LessOrEqual) => " <= ",
        PairOperator::Comparison(Comparison::GreaterOrEqual) => " >= ",
    }
}

fn chain_sign(operator: ChainOperator) -> &'static str {
    match operator {
        ChainOperator::Arithmetic(ArithmeticChain::Add) => " + ",
        ChainOperator::Arithmetic(ArithmeticChain::Multiply) => " * ",
        ChainOperator::Arithmetic(ArithmeticChain::Plus) => " PLUS ",
        ChainOperator::Arithmetic(ArithmeticChain::Times) => " TIMES ",
        ChainOperator::Arithmetic(ArithmeticChain::BitAnd) => " /\\ ",
        ChainOperator::Arithmetic(ArithmeticChain::BitOr) => " \\/ ",
        ChainOperator::Arithmetic(ArithmeticChain::BitXor) => " >< ",
        ChainOperator::Logic(Logic::And) => " AND ",
        ChainOperator::Logic(Logic::Or) => " OR ",
    }
}

#[cycle(write_expr)]
fn write_operand(out: &mut Answer, operand: &Operand) {
    match operand {
        Operand::Integer(value) => out.number(i64::from(*value)),
        Operand::Character(byte) => {
            out.put("'");
            write_character(out, *byte);
            out.put("'");
        }
        Operand::Truth(true) => out.put("TRUE"),
        Operand::Truth(false) => out.put("FALSE"),
        Operand::MostPos => out.put("MOSTPOS INT"),
        Operand::MostNeg => out.put("MOSTNEG INT"),
        Operand::Name(name) => write_name(out, name),
        Operand::Element { name, subscript } => {
            write_name(out, name);
            out.put("[");
            write_expr(out, subscript);
            out.put("]");
        }
        Operand::Bracketed(inner) => {
            out.put("(");
            write_expr(out, inner);
            out.put(")");
        }
        Operand::Converted { to, operand } => {
            write_type(out, *to);
            out.put(" ");
            write_operand(out, operand);
        }
    }
}
