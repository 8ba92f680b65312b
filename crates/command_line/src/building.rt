//! The command of the argument parser.

ghost use Rattle.std.specs.Prelude.{◌≡◌, IfOk, false, codes};
ghost use Rattle.clap.specs.Simple.{app_of, new_shape, shape_of, with_subcommand};
ghost use Rattle.clap.specs.declared.builder.command.Command.TheViews.{out-Command as fields_of};
ghost use Rattle.command_line.specs.Links.{names_of};
ghost use Rattle.command_line.specs.CommandLine.{debug_shape, run_shape, subcommand_shape, tpm};
ghost use Rattle.command_line.specs.CommandLine.{with_all_links, with_flag, with_links, with_option};
ghost use Rattle.command_line.specs.CommandLine.{with_path};

use crate::links::{LinkNames, input_names, output_names};
use clap::{Arg, ArgAction, Command};
use std::alloc::{AllocError, Global};

/// A command with one more argument, which is the path of a file.
fn with_path<'a>(
    alloc: Global,
    command: Command<'a>,
    name: &'a str,
    help: &'a str,
) -> Result<Command<'a>, AllocError>
    ensures shape { IfOk result (λ c. shape_of c ≡ with_path name.entry.now (shape_of command.entry)) }
    ensures local { (fields_of command.entry).has_globals ≡ false
        → IfOk result (λ c. (fields_of c).has_globals ≡ false) }
{
    let path = Arg::new(alloc, name).required(true).help(help);
    command.arg(path)
}

/// A subcommand with the path of a module file.
fn subcommand<'a>(alloc: Global, name: &'a str, about: &'a str) -> Result<Command<'a>, AllocError>
    ensures shape { IfOk result (λ c. shape_of c ≡ subcommand_shape name.entry.now) }
    ensures local { IfOk result (λ c. (fields_of c).has_globals ≡ false) }
{
    let subcommand = Command::new(alloc, name).about(about);
    with_path(alloc, subcommand, "MOD", "The path of a module file")
}

/// A command with one more option, which takes a value.
fn with_option<'a>(
    alloc: Global,
    command: Command<'a>,
    name: &'a str,
    value: &'a str,
    help: &'a str,
) -> Result<Command<'a>, AllocError>
    ensures shape { IfOk result (λ c. shape_of c ≡ with_option name.entry.now (shape_of command.entry)) }
    ensures local { (fields_of command.entry).has_globals ≡ false
        → IfOk result (λ c. (fields_of c).has_globals ≡ false) }
{
    let option = Arg::new(alloc, name)
        .long(name)
        .value_name(value)
        .help(help);
    command.arg(option)
}

/// A command with an option more for each of these links.
fn with_links<'a>(
    alloc: Global,
    command: Command<'a>,
    names: LinkNames,
    help: &'a str,
) -> Result<Command<'a>, AllocError>
    ensures shape { IfOk result (λ c. shape_of c ≡ with_links (names_of names.entry) (shape_of command.entry)) }
    ensures local { (fields_of command.entry).has_globals ≡ false
        → IfOk result (λ c. (fields_of c).has_globals ≡ false) }
{
    let command = with_option(alloc, command, names.first, "F", help)?;
    let command = with_option(alloc, command, names.second, "F", help)?;
    let command = with_option(alloc, command, names.third, "F", help)?;
    with_option(alloc, command, names.fourth, "F", help)
}

/// A command with an option more for each link.
fn with_all_links<'a>(alloc: Global, command: Command<'a>) -> Result<Command<'a>, AllocError>
    ensures shape { IfOk result (λ c. shape_of c ≡ with_all_links (shape_of command.entry)) }
    ensures local { (fields_of command.entry).has_globals ≡ false
        → IfOk result (λ c. (fields_of c).has_globals ≡ false) }
{
    let command = with_links(
        alloc,
        command,
        input_names(),
        "The path of a file that this link reads, or - for standard input",
    )?;
    with_links(
        alloc,
        command,
        output_names(),
        "The path of a file that this link writes, or - for standard output",
    )
}

/// A command with one more option, which takes no value.
fn with_flag<'a>(
    alloc: Global,
    command: Command<'a>,
    name: &'a str,
    help: &'a str,
) -> Result<Command<'a>, AllocError>
    ensures shape { IfOk result (λ c. shape_of c ≡ with_flag name.entry.now (shape_of command.entry)) }
    ensures local { (fields_of command.entry).has_globals ≡ false
        → IfOk result (λ c. (fields_of c).has_globals ≡ false) }
{
    let flag = Arg::new(alloc, name)
        .long(name)
        .action(ArgAction::SetTrue)
        .help(help);
    command.arg(flag)
}

/// The subcommand that runs a module.
fn run_subcommand<'a>(alloc: Global) -> Result<Command<'a>, AllocError>
    ensures shape { IfOk result (λ c. shape_of c ≡ run_shape) }
    ensures local { IfOk result (λ c. (fields_of c).has_globals ≡ false) }
{
    let run = subcommand(alloc, "run", "Runs a module that is certified")?;
    with_all_links(alloc, run)
}

/// The subcommand that runs a module or a source on the machine that checks each rule.
fn debug_subcommand<'a>(alloc: Global) -> Result<Command<'a>, AllocError>
    ensures shape { IfOk result (λ c. shape_of c ≡ debug_shape) }
    ensures local { IfOk result (λ c. (fields_of c).has_globals ≡ false) }
{
    let debug = Command::new(alloc, "debug").about(
        "Runs a module or a source, and tells what each process waits for",
    );
    let debug = with_path(
        alloc,
        debug,
        "FILE",
        "The path of a module file or a source",
    )?;
    let debug = with_all_links(alloc, debug)?;
    let debug = with_option(
        alloc,
        debug,
        "bytes",
        "N",
        "How many bytes of code are executed at most",
    )?;
    with_flag(
        alloc,
        debug,
        "trace",
        "Writes each instruction before it is executed",
    )
}

/// A command with one more subcommand, which has only the path of a module file.
fn with_subcommand<'a>(
    alloc: Global,
    command: Command<'a>,
    name: &'a str,
    about: &'a str,
) -> Result<Command<'a>, AllocError>
    ensures { IfOk result (λ c. app_of c ≡ with_subcommand (app_of command.entry) (subcommand_shape name.entry.now)) }
{
    let subcommand = subcommand(alloc, name, about)?;
    command.subcommand(subcommand)
}

/// A command with two more subcommands, which list the code of a module and explain the verdict on it.
fn with_descriptions<'a>(alloc: Global, command: Command<'a>) -> Result<Command<'a>, AllocError>
    ensures { let listed = with_subcommand (app_of command.entry) (subcommand_shape (codes "list")) in
        IfOk result (λ c. app_of c ≡ with_subcommand listed (subcommand_shape (codes "explain"))) }
{
    let command = with_subcommand(alloc, command, "list", "Lists the instructions of a module")?;
    with_subcommand(
        alloc,
        command,
        "explain",
        "Explains the verdict on a module, or a source",
    )
}

/// A command with one more subcommand, which has the path of a file that is read and of one that is written. The
/// subcommand and each path are said by a name and the help.
fn with_two_paths<'a>(
    alloc: Global,
    command: Command<'a>,
    words: (&'a str, &'a str),
    read: (&'a str, &'a str),
    written: (&'a str, &'a str),
) -> Result<Command<'a>, AllocError>
    ensures { let shape = with_path written.entry.0.now (with_path read.entry.0.now (new_shape words.entry.0.now)) in
        IfOk result (λ c. app_of c ≡ with_subcommand (app_of command.entry) shape) }
{
    let subcommand = Command::new(alloc, words.0).about(words.1);
    let subcommand = with_path(alloc, subcommand, read.0, read.1)?;
    let subcommand = with_path(alloc, subcommand, written.0, written.1)?;
    command.subcommand(subcommand)
}

/// A command with two more subcommands, which run modules.
fn with_runs<'a>(alloc: Global, command: Command<'a>) -> Result<Command<'a>, AllocError>
    ensures { IfOk result (λ c. app_of c
        ≡ with_subcommand (with_subcommand (app_of command.entry) run_shape) debug_shape) }
{
    let run = run_subcommand(alloc)?;
    let debug = debug_subcommand(alloc)?;
    command.subcommand(run)?.subcommand(debug)
}

/// The program's command.
pub fn command<'a>(alloc: Global) -> Result<Command<'a>, AllocError>
    ensures { IfOk result (λ c. app_of c ≡ tpm) }
{
    let tpm = Command::new(alloc, "tpm")
        .about(
            "Compiles occam programs, and verifies, explains, runs, debugs, lists and upgrades transputer modules",
        )
        .subcommand_required(true)
        .disable_help_subcommand(true);
    let tpm = with_two_paths(
        alloc,
        tpm,
        ("compile", "Compiles an occam program to a module"),
        ("SRC", "The path of a source"),
        ("OUT", "The path of the module file that is written"),
    )?;
    let tpm = with_subcommand(alloc, tpm, "verify", "Tells whether a module is certified")?;
    let tpm = with_runs(alloc, tpm)?;
    let tpm = with_descriptions(alloc, tpm)?;
    with_two_paths(
        alloc,
        tpm,
        (
            "upgrade",
            "Writes a module of version 1 as one of version 2",
        ),
        ("OLD", "The path of a module file of version 1"),
        ("NEW", "The path of the module file that is written"),
    )
}
