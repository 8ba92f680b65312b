//! Processes, by the levels of their lines.

ghost use Rattle.std.specs.Prelude.{◌≡◌, ◌≤◌, ◌<◌, ◌-◌, [], length, map, option_map, IfOk, OnOk};
ghost use Rattle.occam_parser.specs.LineFaults.{Tells, Pushes, Makes, IsOnlyOne};
ghost use Rattle.occam_parser.specs.LineViews.{declaration_of, replicator_of};
ghost use Rattle.occam_parser.specs.Blocks.{row_of, rows_of, part_of, Block, Replicated as Repeats};
ghost use Rattle.occam_parser.specs.BlockReading.{first_row, head_row, beginning_from, behind_declarations, begins_at};
ghost use Rattle.occam_parser.specs.BlockReading.{process_at, component_at, components_of, construct_behind};
ghost use Rattle.occam_parser.specs.BlockReading.{block_with};
ghost use Rattle.occam_parser.specs.BlockReading.{body_with, only_one};
ghost use Rattle.occam_parser.specs.BlockViews.{process_of, construct_of, beginning_of, body_of, components_in};
ghost use Rattle.occam_parser.specs.BlockViews.{Adds, led, LeadsTo};

use crate::fault::{Fault, Refusal, at_line};
use crate::head::{BlockKind, FromLine, Head, Start, head_of};
use crate::tree::{Body, Branch, Choice, Construct, Declaration, Expr, Guard, Process, Replicator};
use occam_layout::Line;
use std::alloc::Global;

/// The deepest level of a line.
pub const MAX_LEVEL: u32 = 64;

/// The first line, which has to be at this level, and the lines after it. It belongs to a head, from which on `owner`
/// lines are left.
fn first_at<'l, 'a>(
    owner: usize,
    level: u32,
    lines: &'l [Line<'a>],
) -> Result<(&'l Line<'a>, &'l [Line<'a>]), Refusal>
    ensures found { Tells (λ x. (row_of x.0.now, rows_of x.1.now)) result (first_row level (rows_of lines.now)) }
    ensures within { IfOk result (λ x. length x.1.now < length lines.now) }
    ensures level { OnOk result (level ≤ 64) }
{
    let Some((line, rest)) = lines.split_first() else {
        return Err(Fault::MissingBody.at(owner));
    };
    if line.level < level {
        return Err(Fault::MissingBody.at(owner));
    }
    if line.level > MAX_LEVEL {
        return Err(Fault::Nesting.at(lines.len()));
    }
    if line.level > level {
        return Err(Fault::UnexpectedToken.at(lines.len()));
    }
    Ok((line, rest))
}

/// What the first line says, which has to be at this level: the number of the line, what it says, and the lines after
/// it. It belongs to a head, from which on `owner` lines are left.
#[tactic(auto, unfolding(crate::specs::BlockReading::head_row))]
fn headed<'l, 'a, H: FromLine<'a>>(
    alloc: Global,
    owner: usize,
    level: u32,
    lines: &'l [Line<'a>],
) -> Result<((u32, H), &'l [Line<'a>]), Refusal>
    ensures found { Tells (λ x. ((x.0.0, H.tree x.0.1), rows_of x.1.now)) result
        (head_row H.reads level (rows_of lines.now)) }
    ensures within { IfOk result (λ x. length x.1.now < length lines.now) }
    ensures level { OnOk result (level ≤ 64) }
{
    let (first, rest) = first_at(owner, level, lines)?;
    let head = at_line(H::from_line(alloc, &first.tokens), lines.len())?;
    Ok(((first.number, head), rest))
}

/// Pushes what was read, and returns the lines after it.
pub(crate) fn push<'l, 'a, T: Drop>(
    found: &mut Vec<T>,
    read: Result<(T, &'l [Line<'a>]), Refusal>,
) -> Result<&'l [Line<'a>], Refusal>
    ensures { Pushes read.entry found.old.items found.new.items result }
{
    let (item, rest) = read?;
    found.push(item)?;
    Ok(rest)
}

/// Declarations, and the line after them with what it begins.
#[derive(Drop)]
struct Opening<'a> {
    declarations: Vec<Declaration<'a>>,
    line: u32,
    start: Start<'a>,
}

impl<'a> Opening<'a> {
    /// The lines of a process up to the one that its construct begins with, and the lines after it.
    fn read<'l>(
        alloc: Global,
        owner: usize,
        level: u32,
        lines: &'l [Line<'a>],
    ) -> Result<(Self, &'l [Line<'a>]), Refusal>
        ensures found { Tells (λ x. (beginning_of x.0, rows_of x.1.now)) result
            (beginning_from level [] (rows_of lines.now)) }
        ensures within { IfOk result (λ x. length x.1.now < length lines.now) }
        ensures level { OnOk result (level ≤ 64) }
    {
        let mut declarations = Vec::new(alloc);
        let (mut line, mut rest) = first_at(owner, level, lines)?;
        loop {
            let head = at_line(head_of(alloc, line), rest.len() + 1)?;
            match head {
                Head::Declaration(declaration) => declarations.push(declaration)?,
                Head::Start(start) => {
                    let line = line.number;
                    return Ok((
                        Opening {
                            declarations,
                            line,
                            start,
                        },
                        rest,
                    ));
                }
            }
            (line, rest) = first_at(owner, level, rest)?;
        }
    }
}

/// A process with these declarations and the construct that was read, and the lines after it.
fn made_of<'l, 'a>(
    alloc: Global,
    declarations: Vec<Declaration<'a>>,
    line: u32,
    read: Result<(Construct<'a>, &'l [Line<'a>]), Refusal>,
) -> Result<(Process<'a>, &'l [Line<'a>]), Refusal>
    ensures { Makes construct_of process_of (behind_declarations (map declaration_of declarations.entry.items) line)
        read.entry result }
{
    let (construct, rest) = read?;
    let construct = Box::new(alloc, construct)?;
    Ok((
        Process {
            declarations,
            line,
            construct,
        },
        rest,
    ))
}

/// What is above the process of a component: nothing in a `SEQ` or a `PAR`, and a line in the others.
#[derive(Drop)]
enum ComponentHead<'a> {
    Seq,
    Par,
    If { line: u32, condition: Expr<'a> },
    Alt { line: u32, guard: Guard<'a> },
}

impl<'a> ComponentHead<'a> {
    /// The component that has this process below.
    fn above(self, process: Process<'a>) -> Body<'a>
        ensures { body_of result ≡ led self.entry (process_of process.entry) }
    {
        match self {
            ComponentHead::Seq => Body::Seq(process),
            ComponentHead::Par => Body::Par(process),
            ComponentHead::If { line, condition } => Body::If(Choice {
                line,
                condition,
                process,
            }),
            ComponentHead::Alt { line, guard } => Body::Alt(Branch {
                line,
                guard,
                process,
            }),
        }
    }
}

/// What leads to the process of a component.
#[derive(Drop)]
struct Lead<'a> {
    head: ComponentHead<'a>,
    /// How many lines are left from the head on that the process belongs to.
    owner: usize,
    /// The level of the process.
    level: u32,
}

impl<'a> Lead<'a> {
    /// What leads to the process of the component at `level`, and the lines from that process on. The component
    /// belongs to a head, from which on `owner` lines are left.
    fn read<'l>(
        alloc: Global,
        kind: BlockKind,
        owner: usize,
        level: u32,
        lines: &'l [Line<'a>],
    ) -> Result<(Self, &'l [Line<'a>]), Refusal>
        ensures leads { LeadsTo kind level (rows_of lines.now) result }
        ensures within { IfOk result (λ x. length x.1.now ≤ length lines.now) }
        ensures level { IfOk result (λ x. level ≤ x.0.level) }
    {
        match kind {
            BlockKind::Seq => {
                let head = ComponentHead::Seq;
                Ok((Lead { head, owner, level }, lines))
            }
            BlockKind::Par => {
                let head = ComponentHead::Par;
                Ok((Lead { head, owner, level }, lines))
            }
            BlockKind::If => {
                let ((line, condition), rest) = headed(alloc, owner, level, lines)?;
                let head = ComponentHead::If { line, condition };
                let (owner, level) = (rest.len() + 1, level + 1);
                Ok((Lead { head, owner, level }, rest))
            }
            BlockKind::Alt => {
                let ((line, guard), rest) = headed(alloc, owner, level, lines)?;
                let head = ComponentHead::Alt { line, guard };
                let (owner, level) = (rest.len() + 1, level + 1);
                Ok((Lead { head, owner, level }, rest))
            }
        }
    }
}

/// The component that a process is below its head, and the lines after it.
fn led_by<'l, 'a>(
    head: ComponentHead<'a>,
    read: Result<(Process<'a>, &'l [Line<'a>]), Refusal>,
) -> Result<(Body<'a>, &'l [Line<'a>]), Refusal>
    ensures { Makes process_of body_of (led head.entry) read.entry result }
{
    let (process, rest) = read?;
    Ok((head.above(process), rest))
}

/// A block under a replicator with the component that was read, and the lines after it.
fn replicated_of<'l, 'a>(
    replicator: Replicator<'a>,
    read: Result<(Body<'a>, &'l [Line<'a>]), Refusal>,
) -> Result<(Construct<'a>, &'l [Line<'a>]), Refusal>
    ensures { Makes body_of construct_of (Repeats (replicator_of replicator.entry)) read.entry result }
{
    let (body, rest) = read?;
    Ok((Construct::Replicated { replicator, body }, rest))
}

/// The components of a block: those of its kind, and no others.
#[derive(Drop)]
struct Components<'a> {
    processes: Vec<Process<'a>>,
    choices: Vec<Choice<'a>>,
    branches: Vec<Branch<'a>>,
}

impl<'a> Components<'a> {
    fn none(alloc: Global) -> Components<'a>
        ensures processes { result.processes.items ≡ [] }
        ensures choices { result.choices.items ≡ [] }
        ensures branches { result.branches.items ≡ [] }
    {
        Components {
            processes: Vec::new(alloc),
            choices: Vec::new(alloc),
            branches: Vec::new(alloc),
        }
    }

    /// Adds the component that was read, and returns the lines after it.
    fn add<'l>(
        &mut self,
        read: Result<(Body<'a>, &'l [Line<'a>]), Refusal>,
    ) -> Result<&'l [Line<'a>], Refusal>
        ensures { Adds read.entry self.old self.new result }
    {
        let (component, rest) = read?;
        match component {
            Body::Seq(process) | Body::Par(process) => {
                push(&mut self.processes, Ok((process, rest)))
            }
            Body::If(choice) => push(&mut self.choices, Ok((choice, rest))),
            Body::Alt(branch) => push(&mut self.branches, Ok((branch, rest))),
        }
    }

    /// The block of this kind that has them.
    fn into_block(self, kind: BlockKind) -> Construct<'a>
        ensures { construct_of result ≡ Block kind (components_in kind self.entry) }
    {
        match kind {
            BlockKind::Seq => Construct::Seq(self.processes),
            BlockKind::Par => Construct::Par(self.processes),
            BlockKind::If => Construct::If(self.choices),
            BlockKind::Alt => Construct::Alt(self.branches),
        }
    }
}

/// The process at the front of some lines, at a level, and the lines after it. It belongs to a head, from which on
/// `owner` lines are left.
#[cycle(process)]
pub(crate) fn process<'l, 'a>(
    alloc: Global,
    owner: usize,
    level: u32,
    lines: &'l [Line<'a>],
) -> Result<(Process<'a>, &'l [Line<'a>]), Refusal>
    ensures found { Tells (λ x. (process_of x.0, rows_of x.1.now)) result
        (process_at (65 - level) level (rows_of lines.now)) }
    ensures within { IfOk result (λ x. length x.1.now < length lines.now) }
{
    let (opening, rest) = Opening::read(alloc, owner, level, lines)?;
    let Opening {
        declarations,
        line,
        start,
    } = opening;
    match start {
        Start::Action(action) => {
            made_of(
                alloc,
                declarations,
                line,
                Ok((Construct::Action(action), rest)),
            )
        }
        Start::Block(kind, replicator) => {
            let read = construct(alloc, kind, replicator, level + 1, rest);
            made_of(alloc, declarations, line, read)
        }
    }
}

/// Whether a line at this level comes next, and the same lines.
fn begins_at<'l, 'a>(level: u32, lines: &'l [Line<'a>]) -> (bool, &'l [Line<'a>])
    ensures begins { result.0 ≡ begins_at level (rows_of lines.now) }
    ensures same { result.1.now ≡ lines.now }
{
    match lines.first() {
        Some(line) => (line.level == level, lines),
        None => (false, lines),
    }
}

/// What was read, where no other line at this level may follow.
fn only_one<'l, 'a, T: Drop>(
    level: u32,
    read: Result<(T, &'l [Line<'a>]), Refusal>,
) -> Result<(T, &'l [Line<'a>]), Refusal>
    ensures { IsOnlyOne level read.entry result }
{
    let (found, rest) = read?;
    let (another, rest) = begins_at(level, rest);
    if another {
        return Err(Fault::UnexpectedToken.at(rest.len()));
    }
    Ok((found, rest))
}

/// A block without a replicator, whose components are at `level`, after its head.
#[cycle(process)]
fn block<'l, 'a>(
    alloc: Global,
    kind: BlockKind,
    level: u32,
    lines: &'l [Line<'a>],
) -> Result<(Construct<'a>, &'l [Line<'a>]), Refusal>
    ensures found { Tells (λ x. (construct_of x.0, rows_of x.1.now)) result
        (block_with kind (components_of (component_at (65 - level) level (part_of kind)) level (rows_of lines.now))) }
    ensures within { IfOk result (λ x. length x.1.now ≤ length lines.now) }
{
    let owner = lines.len() + 1;
    let mut found = Components::none(alloc);
    let (mut goes_on, mut rest) = begins_at(level, lines);
    while goes_on {
        let behind = found.add(body(alloc, kind, owner, level, rest))?;
        (goes_on, rest) = begins_at(level, behind);
    }
    Ok((found.into_block(kind), rest))
}

/// The construct of a block's kind, whose components are at `level`, after its head. Under a replicator there is one.
#[cycle(process)]
fn construct<'l, 'a>(
    alloc: Global,
    kind: BlockKind,
    replicator: Option<Replicator<'a>>,
    level: u32,
    lines: &'l [Line<'a>],
) -> Result<(Construct<'a>, &'l [Line<'a>]), Refusal>
    ensures found { Tells (λ x. (construct_of x.0, rows_of x.1.now)) result (construct_behind
        (component_at (65 - level) level) level kind (option_map replicator_of replicator.entry) (rows_of lines.now)) }
    ensures within { IfOk result (λ x. length x.1.now ≤ length lines.now) }
{
    match replicator {
        None => block(alloc, kind, level, lines),
        Some(replicator) => {
            let read = body(alloc, kind, lines.len() + 1, level, lines);
            replicated_of(replicator, only_one(level, read))
        }
    }
}

/// The component at the front of some lines, at a level, and the lines after it. It belongs to a head, from which on
/// `owner` lines are left.
#[cycle(process)]
fn body<'l, 'a>(
    alloc: Global,
    kind: BlockKind,
    owner: usize,
    level: u32,
    lines: &'l [Line<'a>],
) -> Result<(Body<'a>, &'l [Line<'a>]), Refusal>
    ensures found { Tells (λ x. (body_of x.0, rows_of x.1.now)) result
        (body_with kind (component_at (65 - level) level (part_of kind) (rows_of lines.now))) }
    ensures within { IfOk result (λ x. length x.1.now < length lines.now) }
{
    let (lead, rest) = Lead::read(alloc, kind, owner, level, lines)?;
    let Lead { head, owner, level } = lead;
    led_by(head, process(alloc, owner, level, rest))
}
