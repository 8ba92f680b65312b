//! The code of a program.

ghost use Rattle.std.specs.Prelude.{◌≡◌, ◌≤◌, length, map, IfOk, IfSome, Err, false};
ghost use Rattle.occam_parser.specs.LineViews.{formal_of};
ghost use Rattle.occam_parser.specs.Blocks.{GlobalProcedure};
ghost use Rattle.occam_parser.specs.BlockViews.{item_of, procedure_of};
ghost use Rattle.program_meaning.specs.Meaning.{link_number, port_for};
ghost use Rattle.program_meaning.specs.Sequential.{IsSequential, IsSequentialProgram};
ghost use Rattle.line_pieces.specs.HomeViews.{home_seen};
ghost use Rattle.line_pieces.specs.FrameViews.{frame_seen};
ghost use Rattle.code_generator.specs.CallViews.{callees_of, surroundings_of};
ghost use Rattle.code_generator.specs.MainWritten.{behind_item, Precedes, WritesMain};
ghost use Rattle.code_generator.specs.Programs.{home_of_port, with_links, callable, code_of, main_code};
ghost use Rattle.code_generator.specs.TooMuch.{IsTooMuchToWrite};
ghost use Rattle.code_generator.specs.Written.{site_of, Exceeds};
ghost use Rattle.program_work.specs.Readings.{capped};
ghost use Rattle.program_work.specs.Programs.{names_in};
ghost use Rattle.program_work.specs.Processes.{is_sequential};

use crate::calling::{Callee, Surroundings};
use crate::limits::{GREATEST_DEPTH, Limits};
use crate::processes::ProcessWriter;
use code_pieces::operations;
use line_pieces::{Frame, Home, Listing};
use module_builder::GenFault;
use occam_parser::{Formal, Item, Proc};
use program_uses::{Around, Direction, Signature, add_name, link_way};
use program_work::{is_sequential, is_too_much_to_write, names_in};
use scalar_ranges::Meaning;
use std::alloc::{AllocError, Global};
use std::marker::Model;
use usage_checks::{CheckedProgram, add_formals};

/// The code of a program, with rows among its pieces.
#[derive(Drop)]
pub struct Code {
    pub listing: Listing,
    /// The labels of the pieces are numbered below this.
    pub labels: usize,
}

impl Model for Code {
    ghost use Rattle.code_pieces.specs.Pieces as pieces;

    ghost Value = { pieces.Code };

    ghost view = { λ c. record { pieces = c.listing; labels = c.labels } };
}

/// The number of a link, by the last character of its name.
#[tactic(auto, using(crate::proofs::LinksNumbered::numbered))]
fn link_number(name: &[u8]) -> u8
    ensures number { result ≡ link_number name.now }
    ensures small { result ≤ 207 }
{
    match name.last() {
        Some(digit) => digit.saturating_sub(b'0'),
        None => 0,
    }
}

/// Where a parameter of `main` is.
fn home_of_formal(formal: &Formal) -> Home
    ensures { home_seen result ≡ home_of_port (port_for (formal_of formal.now)) }
{
    match link_way(formal.name) {
        Some(Direction::Output) => Home::Link(link_number(formal.name)),
        Some(Direction::Input) => Home::Link(link_number(formal.name) + 4),
        None => Home::Nowhere,
    }
}

/// The parameters of `main` more, which are links.
fn add_links(frame: &mut Frame, formals: &[Formal]) -> Result<(), AllocError>
    ensures { IfOk result (λ _. frame_seen frame.new
        ≡ with_links (map formal_of formals.now) (frame_seen frame.old)) }
{
    for formal in formals {
        frame.add_home(home_of_formal(formal))?;
    }
    Ok(())
}

/// Where the code of `main` begins, and the procedures that it may call.
#[derive(Drop)]
struct Start<'s, 'a> {
    writer: ProcessWriter<'a>,
    callees: Vec<Callee<'s, 'a>>,
}

impl<'a> ProcessWriter<'a> {
    /// A procedure before `main`, which has no code of its own. `number` procedures were before it.
    fn declare_procedure(&mut self, proc: &Proc<'a>, number: u32) -> Result<(), AllocError>
        ensures listing { IfOk result (λ _. self.new.listing ≡ self.old.listing) }
        ensures site { IfOk result (λ _. site_of self.new
            ≡ behind_item (GlobalProcedure (procedure_of proc.now)) number (site_of self.old)) }
    {
        self.frame.add_home(Home::Nowhere)?;
        add_name(&mut self.scope, proc.name, Meaning::Proc(number))?;
        Ok(())
    }

    /// An item before `main`, before which there were these procedures.
    fn declare_item<'s>(
        &mut self,
        item: &'s Item<'a>,
        callees: &mut Vec<Callee<'s, 'a>>,
    ) -> Result<(), AllocError>
        ensures listing { IfOk result (λ _. self.new.listing ≡ self.old.listing) }
        ensures site { IfOk result (λ _. site_of self.new
            ≡ behind_item (item_of item.now) (length callees.old.items) (site_of self.old)) }
        ensures callees { IfOk result (λ _. callees_of callees.new.items
            ≡ callable (item_of item.now) (length (site_of self.old).frame.homes) (callees_of callees.old.items)) }
    {
        match item {
            Item::Constant(constant) => self.declare_constant(constant),
            Item::Proc(proc) => {
                let names = self.frame.homes.len();
                let number = u32::try_from(callees.len()).ok().ok_or(AllocError)?;
                self.declare_procedure(proc, number)?;
                callees.push(Callee { proc, names })?;
                Ok(())
            }
        }
    }

    /// Some items are known, and no code is written.
    fn behind_items<'s>(alloc: Global, items: &'s [Item<'a>]) -> Result<Start<'s, 'a>, AllocError>
        ensures { IfOk result (λ start. Precedes start (map item_of items.now)) }
    {
        let mut writer = ProcessWriter::new(alloc);
        let mut callees = Vec::new(alloc);
        for item in items {
            writer.declare_item(item, &mut callees)?;
        }
        Ok(Start { writer, callees })
    }

    /// The code of `main`, after which the process stops.
    fn write_main(&mut self, around: &Surroundings<'_, 'a>, main: &Proc<'a>) -> Result<(), GenFault>
        ensures ok { IfOk result (λ _. WritesMain self.old self.new around.now (procedure_of main.now)) }
        ensures limit { result ≡ Err GenFault.Limit → Exceeds around.now.limits self.old.listing
            (main_code (surroundings_of around.now) (procedure_of main.now) (site_of self.old)) }
        ensures invalid { result ≡ Err GenFault.Invalid → IsSequential (procedure_of main.now).body
            → around.now.limits.is_sequential ≡ false }
    {
        add_links(&mut self.frame, &main.formals)?;
        add_formals(self.alloc, &mut self.scope, &main.formals)?;
        self.write(around, &main.body)?;
        self.listing.operate(operations::STOP_PROCESS)?;
        Ok(())
    }
}

/// What bounds the code of a program whose last item is this procedure.
fn limits_of(items: &[Item], main: &Proc) -> Limits
    ensures names { result.names ≡ capped (names_in (map item_of items.now)) }
    ensures is_sequential { result.is_sequential ≡ is_sequential (procedure_of main.now).body }
{
    Limits {
        names: names_in(items),
        is_sequential: is_sequential(&main.body),
    }
}

/// The code of a program. The definition has that of programs without `PAR` and `ALT`; of others no clause says it. The
/// error is [`GenFault::Limit`] if too much is gone over, so that the time and the memory that it takes are bounded,
/// however often procedures are called, or if a `PAR` or an `ALT` is above a limit of the format. Of a sequential
/// program it comes only if the sums over the tree are too much, or if the code by the definition is. It is never
/// [`GenFault::Invalid`] of a sequential program, and of no other checked one that is known.
pub fn code_of(alloc: Global, program: &CheckedProgram) -> Result<Code, GenFault>
    ensures ok { IfOk result (λ code. IfSome (code_of (map item_of program.now.program.items.items))
        (λ c. code ≡ c)) }
    ensures limit { result ≡ Err GenFault.Limit → IsSequentialProgram (map item_of program.now.program.items.items)
        → IsTooMuchToWrite (map item_of program.now.program.items.items) }
    ensures invalid { result ≡ Err GenFault.Invalid
        → ¬ IsSequentialProgram (map item_of program.now.program.items.items) }
{
    let items = program.program().items();
    let Some((last, before)) = items.split_last() else {
        return Err(GenFault::Invalid);
    };
    let Item::Proc(main) = last else {
        return Err(GenFault::Invalid);
    };
    let Some((_, signatures)) = program.signatures().split_last() else {
        return Err(GenFault::Invalid);
    };
    let limits = limits_of(items, main);
    if is_too_much_to_write(items) && limits.is_sequential {
        return Err(GenFault::Limit);
    }
    let start = ProcessWriter::behind_items(alloc, before)?;
    let callees = start.callees;
    let mut writer = start.writer;
    let count = callees.len();
    let around = Surroundings {
        around: Around {
            signatures,
            uncounted: None,
        },
        callees: &callees,
        count,
        deeper: GREATEST_DEPTH,
        limits,
    };
    writer.write_main(&around, main)?;
    Ok(Code {
        listing: writer.listing,
        labels: writer.label,
    })
}
