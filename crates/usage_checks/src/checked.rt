//! Whether a program breaks no rule of usage.

ghost use Rattle.std.specs.Prelude.{◌≡◌, ◌⊎◌, true, Some, map, IfOk, IfErr};
ghost use Rattle.occam_parser.specs.BlockViews.{item_of};
ghost use Rattle.occam_parser.specs.Words.{items_have_words};
ghost use Rattle.program_meaning.specs.Sequential.{IsSequentialProgram};
ghost use Rattle.program_uses.specs.Signatures.{signatures_of};
ghost use Rattle.usage_checks.specs.ItemRules.{after_items, BreaksProgram, BreaksNoRule};
ghost use Rattle.usage_checks.specs.NeverStuck.{NeverStuck};
ghost use Rattle.program_uses.specs.Telling.{IsFirst};
ghost use Rattle.usage_checks.specs.Telling.{out_of_memory, verdict};

use crate::items::Outside;
use crate::telling::Findings;
use occam_parser::Program;
use program_uses::{MEMORY, Signature, UsageFault};
use std::alloc::Global;

/// A program that breaks no rule, with what is known of its procedures. Its literals are words and bytes.
#[derive(Drop)]
pub struct CheckedProgram<'a> {
    program: Program<'a>,
    signatures: Vec<Signature>,
    ghost unbroken: { BreaksNoRule (map item_of program.items.items) },
    ghost signed: { signatures_of signatures.items ≡ (after_items (map item_of program.items.items)).signatures },
}

impl<'a> CheckedProgram<'a> {
    /// The program. It breaks no rule.
    pub fn program(&self) -> &Program<'a>
        ensures program { result.now ≡ self.now.program }
        ensures unbroken { BreaksNoRule (map item_of result.now.items.items) }
        ensures words { items_have_words (map item_of result.now.items.items) ≡ true }
    {
        &self.program
    }

    /// What is known of each procedure by those that call it, in the order of the program: of each formal what it
    /// denotes, and in rising order the ends that the procedure uses of it.
    pub fn signatures(&self) -> &[Signature]
        ensures signatures { result.now ≡ self.now.signatures.items }
        ensures signed { signatures_of result.now
            ≡ (after_items (map item_of self.now.program.items.items)).signatures }
    {
        &self.signatures
    }
}

impl Findings {
    /// The fault that is reported of a whole program, if there is one: at line 0 if memory ran out.
    fn verdict(self) -> Option<UsageFault>
        ensures { result ≡ verdict self }
    {
        if self.complete {
            self.first
        } else {
            Some(UsageFault {
                number: MEMORY,
                line: 0,
            })
        }
    }
}

/// Whether a program breaks no rule of usage, 9 to 19.
///
/// A fault names a rule that is broken on its line, and no line before it breaks one, nor that line one with a lower
/// number; or memory ran out, which is [`MEMORY`] at line 0. It takes time n log n in the size that is gone over, of
/// which the bound is 8,388,608: what is larger is a fault, and is gone over once. Memory is linear in the source, and
/// in the ends that a procedure uses.
///
/// If it is `Ok` and the program is sequential, so that its `main` has no `PAR`, no `ALT` and no instance, then it
/// never gets stuck: whatever comes in on its links and whoever listens to them, each expression that it comes to has
/// a value, and each subscript lies inside.
#[tactic(auto, using(crate::proofs::ProgramsGoWell::programs_go_on))]
pub fn check<'a>(alloc: Global, program: Program<'a>) -> Result<CheckedProgram<'a>, UsageFault>
    ensures ok { IfOk result (λ c. c.program.items.items ≡ program.entry.items.items) }
    ensures signatures { IfOk result (λ c. signatures_of c.signatures.items
        ≡ (after_items (map item_of program.entry.items.items)).signatures) }
    ensures never_stuck { IfOk result (λ c. IsSequentialProgram (map item_of c.program.items.items)
        → NeverStuck (map item_of c.program.items.items)) }
    ensures err { IfErr result (λ f. (f ≡ out_of_memory)
        ⊎ IsFirst (BreaksProgram (map item_of program.entry.items.items)) (Some f)) }
{
    let mut outside = Outside::new(alloc);
    let mut findings = Findings::new();
    findings.walk_program(&mut outside, program.items());
    match findings.verdict() {
        Some(fault) => Err(fault),
        None => Ok(CheckedProgram {
            program,
            signatures: outside.signatures,
        }),
    }
}
