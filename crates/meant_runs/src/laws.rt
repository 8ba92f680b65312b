//! The laws of what runs come to, each the contract of a function that does nothing.

ghost use Rattle.occam_parser.specs.declared.tree.ValueType.TheVariants as value_type;
ghost use Rattle.program_meaning.specs.SmallPrograms.{echoes, skip};
ghost use Rattle.machine_state.specs.SmallModules.{echo};
ghost use Rattle.meant_runs.specs.Meant.{RunsAsMeant};
ghost use Rattle.meant_runs.specs.MainsRun.{RunsFollowMain};

/// A small module runs as a small program means: it sends on the byte that it receives, whatever comes in and wherever
/// something listens.
#[tactic(auto, using(crate::proofs::EchoMeant::echo_runs_as_meant))]
pub fn echo_runs_as_meant()
    ensures { RunsAsMeant echo (echoes value_type.Byte skip) }
{}

/// A run of a certified module of pieces reads, writes and ends as its program means, where the code does what main does.
pub fn runs_follow_main()
    ensures { RunsFollowMain }
{}
