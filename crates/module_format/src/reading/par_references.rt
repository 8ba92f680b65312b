//! References of PAR rows, which are checked once all rows are read.

ghost use Rattle.std.specs.Prelude.{◌≡◌, ◌+◌, ⊤, ℕ, length, map};
ghost use Rattle.std.specs.List.{flat_map};
ghost use Rattle.module_format.specs.Contents.{branch_of, par_of};
ghost use Rattle.module_format.specs.Keeping.{is_region, has_element, names, end_is_there};
ghost use Rattle.module_format.specs.Spelling.{u16_bytes, end_bytes, branch_bytes, par_bytes};
ghost use Rattle.module_format.specs.Meaning.{naming};
ghost use Rattle.module_format.specs.References.{parameter_references, end_references, branch_references};
ghost use Rattle.module_format.specs.References.{par_references};

use crate::contexts::Contexts;
use crate::fault::FormatFault;
use crate::reading::references::{References, list_references, not_there};
use crate::row_sizes::{
    BRANCH_HEAD_SIZE, CHANNEL_SIZE, END_SIZE, INTERVAL_SIZE, PAR_HEAD_SIZE, PARAMETER_NUMBER_SIZE,
    TAG_SIZE,
};
use crate::rows::{BranchRow, EndKind, EndRow, ParRow, Parameter, ParameterKind};

/// The parameters of a context.
#[derive(Clone, Copy)]
pub(crate) struct ContextParameters<'a>(&'a [Parameter]);

impl ContextParameters<'_> {
    /// Whether the parameter of a number is a region.
    fn has_region(&self, number: u16) -> bool
        ensures { result ≡ names is_region self.now.0.now number }
    {
        match self.0.get(usize::from(number)) {
            Some(parameter) => match parameter.kind {
                ParameterKind::ReadRegion { .. } | ParameterKind::WrittenRegion { .. } => true,
                ParameterKind::Value { .. } | ParameterKind::Channels { .. } => false,
            },
            None => false,
        }
    }

    /// Whether the channel that an end belongs to is there.
    fn has_end(&self, kind: EndKind) -> bool
        ensures { result ≡ end_is_there self.now.0.now kind }
    {
        let EndKind::Parameter { number, element } = kind else {
            return true;
        };
        if number < 0 {
            return false;
        }
        match self.0.get(number as usize) {
            Some(parameter) => match parameter.kind {
                ParameterKind::Channels { count, .. } => element < count,
                _ => false,
            },
            None => false,
        }
    }
}

impl<'p> References<ContextParameters<'p>> for u16 {
    ghost naming = { naming (λ n. n) u16_bytes (λ parameters. parameter_references parameters.0.now) };

    #[tactic(auto, unfolding(crate::specs::References::parameter_references, crate::specs::Spelling::u16_bytes))]
    fn references(
        &self,
        parameters: &ContextParameters<'p>,
        at: usize,
    ) -> Result<usize, FormatFault> {
        if !parameters.has_region(*self) {
            return Err(not_there(at));
        }
        Ok(at + PARAMETER_NUMBER_SIZE)
    }
}

impl<'p> References<ContextParameters<'p>> for EndRow {
    ghost naming = { naming (λ e. e) end_bytes (λ parameters. end_references parameters.0.now) };

    #[tactic(auto, using(crate::proofs::Sizes::end_size), unfolding(crate::specs::References::end_references))]
    fn references(
        &self,
        parameters: &ContextParameters<'p>,
        at: usize,
    ) -> Result<usize, FormatFault> {
        if !parameters.has_end(self.kind) {
            return Err(not_there(at + TAG_SIZE));
        }
        Ok(at + END_SIZE)
    }
}

impl<'p> References<ContextParameters<'p>> for BranchRow {
    ghost naming = { naming branch_of branch_bytes (λ parameters. branch_references parameters.0.now) };

    #[tactic(auto, using(crate::proofs::Sizes::branch_size), unfolding(crate::specs::References::branch_references, crate::specs::Reading::and_then))]
    fn references(
        &self,
        parameters: &ContextParameters<'p>,
        at: usize,
    ) -> Result<usize, FormatFault> {
        let written = at
            + BRANCH_HEAD_SIZE
            + INTERVAL_SIZE * self.writes.len()
            + INTERVAL_SIZE * self.reads.len();
        let read = list_references(parameters, written, &self.written_parameters)?;
        let ends = list_references(parameters, read, &self.read_parameters)?;
        list_references(parameters, ends, &self.ends)
    }
}

impl References<Contexts<'_, '_>> for ParRow {
    ghost naming = { naming par_of par_bytes par_references };

    #[tactic(auto, using(crate::proofs::Sizes::par_size), unfolding(crate::specs::References::par_references))]
    fn references(&self, contexts: &Contexts<'_, '_>, at: usize) -> Result<usize, FormatFault> {
        let parameters = ContextParameters(contexts.parameters(u32::from(self.context)));
        let branches = at + PAR_HEAD_SIZE + CHANNEL_SIZE * self.channels.len();
        list_references(&parameters, branches, &self.branches)
    }
}
