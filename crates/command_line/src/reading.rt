//! What the words of a command line ask for.

ghost use Rattle.std.specs.Prelude.{◌≡◌, IfOk, IfErr, Some, option_map, option_and_then};
ghost use Rattle.clap.specs.Matches.{found_of};
ghost use Rattle.clap.specs.Simple.{subcommand_rows_of};
ghost use Rattle.clap.specs.Walk.{first_of, rows_of};
ghost use Rattle.command_line.specs.Words.{words_of};
ghost use Rattle.command_line.specs.Links.{names_of, paths_of};
ghost use Rattle.command_line.specs.Asked.{asked_of};
ghost use Rattle.command_line.specs.CommandLine.{compiled_by, debugged_by, entered_by, flag_given, line_of, named};
ghost use Rattle.command_line.specs.CommandLine.{of_module, paths_given, upgraded_by};
ghost use Rattle.command_line.specs.LineFaults.{IsFaultAt};

use crate::building::command;
use crate::fitting::misfit;
use crate::lines::{Line, LineFault, Question};
use crate::links::{LinkNames, LinkPaths, OnLinks, input_names, output_names};
use clap::ArgMatches;
use std::alloc::Global;

/// The path that is given for an option.
fn path_given<'a>(given: &ArgMatches<'a>, name: &str) -> Option<&'a str>
    ensures { option_map (λ path. path.now) result ≡ first_of name.now (rows_of (found_of given.now)) }
{
    given.get_str(name)
}

/// The paths that are given for the links of these names.
fn paths_given<'a>(given: &ArgMatches<'a>, names: LinkNames) -> LinkPaths<'a>
    ensures { paths_of result ≡ paths_given (names_of names.entry) (rows_of (found_of given.now)) }
{
    OnLinks {
        first: path_given(given, names.first),
        second: path_given(given, names.second),
        third: path_given(given, names.third),
        fourth: path_given(given, names.fourth),
    }
}

/// What the subcommand of this name asks for with this path and what else is given to it.
fn line_named<'a>(name: &str, given: &ArgMatches<'a>, path: &'a str) -> Option<Line<'a>>
    ensures { option_map asked_of result ≡ named name.now (rows_of (found_of given.now)) path.now }
{
    match name {
        "verify" => Some(Line::Ask {
            path,
            question: Question::Verdict,
        }),
        "run" => Some(Line::Ask {
            path,
            question: Question::Run {
                inputs: paths_given(given, input_names()),
                outputs: paths_given(given, output_names()),
            },
        }),
        "list" => Some(Line::Ask {
            path,
            question: Question::Listing,
        }),
        "explain" => Some(Line::Ask {
            path,
            question: Question::Explanation,
        }),
        _ => None,
    }
}

/// The module of a source, written to a file.
fn compile_line<'a>(given: &ArgMatches<'a>) -> Option<Line<'a>>
    ensures { option_map asked_of result ≡ compiled_by (rows_of (found_of given.now)) }
{
    let source = path_given(given, "SRC")?;
    let out = path_given(given, "OUT")?;
    Some(Line::Compile { source, out })
}

/// The module of the one file, written to the other.
fn upgrade_line<'a>(given: &ArgMatches<'a>) -> Option<Line<'a>>
    ensures { option_map asked_of result ≡ upgraded_by (rows_of (found_of given.now)) }
{
    let path = path_given(given, "OLD")?;
    let out = path_given(given, "NEW")?;
    Some(Line::Upgrade { path, out })
}

/// Whether this flag is given.
fn flag_given(given: &ArgMatches<'_>, name: &str) -> bool
    ensures { result ≡ flag_given name.now (rows_of (found_of given.now)) }
{
    match path_given(given, name) {
        Some(value) => value == "true",
        None => false,
    }
}

/// A run of the module or the source in a file.
fn debug_line<'a>(given: &ArgMatches<'a>) -> Option<Line<'a>>
    ensures { option_map asked_of result ≡ debugged_by (rows_of (found_of given.now)) }
{
    let path = path_given(given, "FILE")?;
    Some(Line::Debug {
        path,
        inputs: paths_given(given, input_names()),
        outputs: paths_given(given, output_names()),
        bytes: path_given(given, "bytes"),
        trace: flag_given(given, "trace"),
    })
}

/// What the subcommand of this name asks of a module.
fn module_line<'a>(name: &str, given: &ArgMatches<'a>) -> Option<Line<'a>>
    ensures { option_map asked_of result ≡ of_module name.now (rows_of (found_of given.now)) }
{
    let path = path_given(given, "MOD")?;
    line_named(name, given, path)
}

/// What the subcommand of this name asks for.
fn entered<'a>(name: &str, given: &ArgMatches<'a>) -> Option<Line<'a>>
    ensures { option_map asked_of result ≡ entered_by (name.now, rows_of (found_of given.now)) }
{
    if name == "compile" {
        compile_line(given)
    } else if name == "upgrade" {
        upgrade_line(given)
    } else if name == "debug" {
        debug_line(given)
    } else {
        module_line(name, given)
    }
}

/// What the matches ask for.
fn asked<'a>(matches: &ArgMatches<'a>) -> Option<Line<'a>>
    ensures { let found = subcommand_rows_of matches.now in
        option_map asked_of result ≡ option_and_then entered_by found }
{
    let (name, given) = matches.subcommand()?;
    entered(name, given)
}

/// What the words of a command line ask for, of which the first is the program's name: `compile SRC OUT`, `verify MOD`,
/// `list MOD`, `explain MOD`, `upgrade OLD NEW`, `run MOD` with the options `--in0 F` to `--in3 F` and `--out0 F` to
/// `--out3 F`, or `debug FILE` with those, `--bytes N` and `--trace`.
pub fn line<'a>(alloc: Global, words: &'a [&'a str]) -> Result<Line<'a>, LineFault>
    ensures asked { IfOk result (λ l. line_of (words_of words.entry.now) ≡ Some (asked_of l)) }
    // A body that always reports that memory ran out meets this too, since no clause can say that memory
    // is left: `scripts/command_lines` shows that lines are read.
    ensures fault { IfErr result (IsFaultAt (words_of words.entry.now)) }
{
    let matches = command(alloc)?.try_get_matches_from(words)?;
    // The parser takes no words without a subcommand and its paths.
    let line = asked(&matches).unwrap();
    match misfit(line) {
        Some(misfit) => Err(LineFault::Misfit(misfit)),
        None => Ok(line),
    }
}
