//! What is written of a limit that is exceeded.

ghost use Rattle.std.specs.Prelude.{◌≡◌, ◌++◌, ◌<◌, ◌^◌, OnOk, IfOk, string_bytes};
ghost use Rattle.program_walk.specs.LimitTexts.{after_count, before_count, excess_text, large_text, limit_text, limit_words};

use crate::excess::{Excess, Limit};
use occam_layout::Line;
use reason_texts::{Span, find_line, line_of, line_span, push_block, push_place};
use std::alloc::{AllocError, Global};

macro_rules! around {
    ($before:literal count $after:literal) => {
        &($before, $after)
    };
}

/// What is written of a limit around the count.
fn words_of(limit: Limit) -> &'static (&'static str, &'static str)
    ensures before { result.now.0.now ≡ before_count limit }
    ensures after { result.now.1.now ≡ after_count limit }
{
    match limit {
        Limit::Components => around!("this PAR has " count " components; at most 64 are possible"),
        Limit::Guards => around!("this ALT has " count " guards; at most 64 are possible"),
        Limit::Turns => around!("this IF has " count " turns; at most 8191 are possible"),
        Limit::Words => around!("the variables up to here take " count
            " words; 16378 are possible"),
        Limit::Items => around!("the tables and texts up to here have " count
            " items; 4096 are possible"),
        Limit::Rows => around!("the constructs and instances up to here take " count
            " rows or more; 8192 are possible"),
        Limit::Entries => around!("the rows up to here have " count
            " entries or more; 4194304 are possible"),
        Limit::Pars => around!("there are " count " PARs up to here; 1024 are possible"),
        Limit::Nesting => around!("" count " PARs are within one another here; 64 are possible"),
        Limit::Processes => around!("" count
            " processes are within one another here; 2048 are possible"),
        Limit::Steps => around!("the loops here take " count
            " steps or more; 4611686018427387904 are possible"),
        Limit::Bytes => around!("the code up to here takes " count
            " bytes or more; 262143 are possible"),
        Limit::Tables => around!("the code up to here reads " count " tables; 1024 are possible"),
        Limit::Size =>
            around!("the lines up to here, those of each instance again, have a size of " count
            " or more; 8388608 is possible"),
        Limit::Work => around!("writing the code up to here takes " count
            " steps or more; 400000000 are possible"),
        Limit::Reading =>
            around!("reading the lines up to here, again under each replicator, takes " count
            " steps; 25000000 are possible"),
        Limit::TurnReading(_) => around!("reading a turn of this IF takes " count
            " steps; 4096 and four times its size are possible"),
        Limit::Data => around!("the code up to here uses " count " words; 16384 are possible"),
        Limit::Budget => around!("" count
            " steps or more are done from here on; 4611686018427387904 are possible"),
    }
}

/// Appends what there is too much of, how much, and how much is possible.
#[tactic(auto, unfolding(crate::specs::LimitTexts::limit_words))]
fn push_limit(text: &mut String, limit: Limit, count: u64) -> Result<(), AllocError>
    ensures { OnOk result (string_bytes text.new ≡ string_bytes text.old ++ limit_words limit count) }
{
    let (before, after) = *words_of(limit);
    write!(text, "{before}{count}{after}")
}

/// Appends where a limit is exceeded, which one, and the line.
#[tactic(auto, unfolding(crate::specs::LimitTexts::excess_text))]
fn push_excess(
    text: &mut String,
    path: &str,
    excess: Excess,
    line: &[u8],
    span: Span,
) -> Result<(), AllocError>
    requires { span.at < 2 ^ 32 }
    ensures { OnOk result (string_bytes text.new ≡ string_bytes text.old ++ excess_text path.now excess line.now span) }
{
    push_place(text, path, excess.line, span.at)?;
    push_limit(text, excess.limit, excess.count)?;
    text.push_str(" (G1)\n")?;
    push_block(text, line, span)?;
    Ok(())
}

/// That a program is too large.
fn large_text(alloc: Global, path: &str) -> Result<String, AllocError>
    ensures { IfOk result (λ text. string_bytes text ≡ large_text path.now) }
{
    format!(in alloc;
        "{path}: the code, words or budget of this program would be too large, or it would take too long to write (G1)\n"
    )
}

/// What is written of a program that is above a limit: where, which one, and the line, if its source shows one. The path is
/// that of the source, and `lines` are its lines.
pub fn limit_text(
    alloc: Global,
    path: &str,
    source: &[u8],
    lines: &[Line<'_>],
    excess: Option<Excess>,
) -> Result<String, AllocError>
    ensures { IfOk result (λ text. string_bytes text ≡ limit_text path.now source.now lines.now excess) }
{
    let Some(excess) = excess else {
        return large_text(alloc, path);
    };
    let Some(line) = line_of(excess.line, lines) else {
        return large_text(alloc, path);
    };
    let Some(found) = find_line(source, excess.line) else {
        return large_text(alloc, path);
    };
    let mut text = String::new(alloc);
    let span = line_span(found.offset, &line.tokens);
    push_excess(&mut text, path, excess, found.bytes, span)?;
    Ok(text)
}
