//! Writing what is around the body of a procedure that is called. If a function fails, some pieces more may have come.

ghost use Rattle.std.specs.Prelude.{◌≡◌, ◌++◌, ◌∷◌, [], IfOk};
ghost use Rattle.occam_parser.specs.BlockViews.{procedure_of};
ghost use Rattle.scalar_ranges.specs.Moves.{outermost};
ghost use Rattle.scalar_ranges.specs.Scopes.{entries_of, blocks_of, known_of};
ghost use Rattle.usage_checks.specs.ItemRules.{in_body};
ghost use Rattle.line_pieces.specs.FrameViews.{frame_seen};
ghost use Rattle.code_generator.specs.CallViews.{callee_of};
ghost use Rattle.code_generator.specs.Calls.{outside_frame};
ghost use Rattle.code_generator.specs.Instances.{bindings_code, all_bound};
ghost use Rattle.code_generator.specs.PassedViews.{parameters_of, actuals_of};
ghost use Rattle.code_generator.specs.Processes.{row_of};
ghost use Rattle.code_generator.specs.Written.{site_of, Spends, BeginsInstance, EndsInstance};

use crate::calling::Callee;
use crate::lending::{Spare, shared, taken};
use crate::limits::Limits;
use crate::passing::{Passed, all_forgotten, values_passed, write_bindings, write_cleaning};
use crate::processes::ProcessWriter;
use line_pieces::{Frame, Lent, Listing, Setting, facts_in, label_after, outermost_homes};
use module_builder::GenFault;
use occam_parser::Proc;
use std::alloc::AllocError;
use std::mem;
use usage_checks::add_formals;

impl<'a> ProcessWriter<'a> {
    /// A scope of the `count` outermost names for an instance.
    fn lend(&mut self, count: usize) -> Result<Spare<'a>, GenFault>
        ensures entries { IfOk result (λ spare.
            entries_of spare.scope ≡ outermost count (entries_of self.old.scope)) }
        ensures same { IfOk result (λ _. Spends self.old self.new) }
    {
        let mut spare = taken(self.alloc, &mut self.spares);
        let kept = shared(&spare.scope, &self.scope, count);
        let names = Lent {
            count,
            kept: kept.names,
            letters: kept.letters,
            spelled: spare.spelled,
        };
        self.listing.lend(&self.scope, names)?;
        spare.become_outermost(&self.scope, kept.names, count)?;
        Ok(spare)
    }

    /// The scope of an instance that has ended is kept for further ones, and those that it did not use.
    fn keep(&mut self, spares: Vec<Spare<'a>>, spare: Spare<'a>)
        ensures { Spends self.old self.new }
    {
        self.spares = spares;
        let _ = self.spares.push(spare);
    }

    /// What is passed is counted.
    fn count_passed(&mut self, passed: Passed) -> Result<(), GenFault>
        ensures { IfOk result (λ _. Spends self.old self.new) }
    {
        let setting = Setting {
            scope: &self.scope,
            homes: &self.frame.homes,
            top: self.frame.top,
        };
        let values = values_passed(setting, passed);
        self.listing.pass(passed.actuals.len())?;
        self.listing.pass_values(values)
    }

    /// The frame of a procedure that is passed this, before its formals: `names` names are known before it.
    fn outside_frame(&self, names: usize, passed: Passed) -> Result<Frame, AllocError>
        ensures { IfOk result (λ frame. frame_seen frame
            ≡ outside_frame names (parameters_of passed.entry) (actuals_of passed.entry) (site_of self.now)) }
    {
        let setting = Setting {
            scope: &self.scope,
            homes: &self.frame.homes,
            top: self.frame.top,
        };
        let known = facts_in(self.alloc, &self.scope, &self.frame)?;
        let outer = all_forgotten(self.alloc, setting, passed, known)?;
        let homes = outermost_homes(self.alloc, &self.frame.homes, names)?;
        Ok(Frame {
            homes,
            top: self.frame.top,
            outer,
        })
    }

    /// The frame of a procedure that is passed this. What is passed is written.
    fn write_passed(&mut self, names: usize, passed: Passed) -> Result<Frame, AllocError>
        ensures code { IfOk result (λ _. self.new.listing ≡ self.old.listing
            ++ bindings_code (frame_seen self.old.frame).homes (entries_of self.old.scope) (parameters_of passed.entry)
            0 (actuals_of passed.entry) (outside_frame names (parameters_of passed.entry) (actuals_of passed.entry)
            (site_of self.old))) }
        ensures frame { IfOk result (λ frame. frame_seen frame
            ≡ all_bound (frame_seen self.old.frame).homes (entries_of self.old.scope) (parameters_of passed.entry) 0
            (actuals_of passed.entry) (outside_frame names (parameters_of passed.entry) (actuals_of passed.entry)
            (site_of self.old))) }
        ensures same { IfOk result (λ _. site_of self.new ≡ site_of self.old) }
    {
        let mut frame = self.outside_frame(names, passed)?;
        let setting = Setting {
            scope: &self.scope,
            homes: &self.frame.homes,
            top: self.frame.top,
        };
        write_bindings(self.alloc, &mut self.listing, setting, passed, &mut frame)?;
        Ok(frame)
    }

    /// The formals of a procedure are known, and its body begins at a label.
    fn begin_body(&mut self, limits: Limits, label: usize, proc: &Proc<'a>) -> Result<(), GenFault>
        ensures row { IfOk result (λ _. self.new.listing
            ≡ self.old.listing ++ row_of label (frame_seen self.old.frame) (known_of self.new.scope) ∷ []) }
        ensures known { IfOk result (λ _. known_of self.new.scope
            ≡ in_body (procedure_of proc.now) (known_of self.old.scope)) }
        ensures frame { IfOk result (λ _. frame_seen self.new.frame ≡ frame_seen self.old.frame) }
        ensures label { IfOk result (λ _. self.new.label ≡ self.old.label) }
    {
        add_formals(self.alloc, &mut self.scope, &proc.formals)?;
        self.write_row(limits, label)?;
        self.listing.enter_line();
        Ok(())
    }

    /// Where the body of a procedure begins that is passed this: the pieces go on there, until it ends.
    #[inline(never)]
    pub(crate) fn begin_instance(
        &mut self,
        limits: Limits,
        callee: Callee<'_, 'a>,
        passed: Passed,
    ) -> Result<ProcessWriter<'a>, GenFault>
        ensures { IfOk result (λ body. BeginsInstance self.old self.new body (callee_of callee.entry)
            (parameters_of passed.entry) (actuals_of passed.entry)) }
    {
        self.count_passed(passed)?;
        let label = label_after(self.label)?;
        let names = self.lend(callee.names)?;
        let frame = self.write_passed(callee.names, passed)?;
        let mut body = ProcessWriter {
            alloc: self.alloc,
            context: self.context,
            scope: names.scope,
            frame,
            label,
            listing: mem::replace(&mut self.listing, Listing::new(self.alloc)),
            spent: self.spent,
            spares: mem::replace(&mut self.spares, Vec::new(self.alloc)),
            spelled: names.spelled,
        };
        body.begin_body(limits, self.label, callee.proc)?;
        Ok(body)
    }

    /// The pieces go on where the body of a procedure ended.
    fn go_on_after(&mut self, body: ProcessWriter<'a>)
        requires { blocks_of body.scope ≡ [] }
        ensures listing { self.new.listing ≡ body.entry.listing }
        ensures label { self.new.label ≡ body.entry.label }
        ensures scope { self.new.scope ≡ self.old.scope }
        ensures frame { self.new.frame ≡ self.old.frame }
    {
        self.label = body.label;
        self.spent = body.spent;
        self.listing = body.listing;
        self.keep(
            body.spares,
            Spare {
                scope: body.scope,
                spelled: body.spelled,
            },
        );
    }

    /// After the body of a procedure that was passed this, which ended so.
    #[inline(never)]
    pub(crate) fn end_instance(
        &mut self,
        body: ProcessWriter<'a>,
        passed: Passed,
    ) -> Result<(), GenFault>
        requires { blocks_of body.scope ≡ [] }
        ensures { IfOk result (λ _. EndsInstance self.old self.new body.entry (parameters_of passed.entry)
            (actuals_of passed.entry)) }
    {
        self.go_on_after(body);
        self.listing.leave_line()?;
        let setting = Setting {
            scope: &self.scope,
            homes: &self.frame.homes,
            top: self.frame.top,
        };
        write_cleaning(&mut self.listing, setting, passed)?;
        Ok(())
    }
}
