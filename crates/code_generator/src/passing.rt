//! What an instance passes. If a function that writes fails, some pieces more may have come.

ghost use Rattle.std.specs.Prelude.{◌≡◌, ◌++◌, ℕ, IfOk, Some, map, option_map};
ghost use Rattle.occam_parser.specs.Views.{expression_of};
ghost use Rattle.scalar_ranges.specs.Entries.{type_range};
ghost use Rattle.scalar_ranges.specs.Scopes.{entries_of, meaning_of};
ghost use Rattle.program_uses.specs.PlaceViews.{place_at};
ghost use Rattle.line_pieces.specs.Actions.{element_home};
ghost use Rattle.line_pieces.specs.Homes.{Table};
ghost use Rattle.line_pieces.specs.FrameViews.{frame_seen};
ghost use Rattle.line_pieces.specs.HomeViews.{home_seen};
ghost use Rattle.code_generator.specs.Instances.{meaning_at, with_ends, as_passed, passed_place, passed_home};
ghost use Rattle.code_generator.specs.Instances.{binding_code, bound};
ghost use Rattle.code_generator.specs.Instances.{bindings_code, all_bound, passed_target, unknown_in, with_target};
ghost use Rattle.code_generator.specs.Instances.{all_forgotten, cleaning_code};
ghost use Rattle.code_generator.specs.PassedViews.{parameters_of, actuals_of, is_found};
ghost use Rattle.line_pieces.specs.SettingViews.{entries_in, homes_in};
ghost use Rattle.line_pieces.specs.TargetViews.{target_seen};

use code_pieces::RowEntry;
use line_pieces::{Frame, Home, Listing, Setting, Target, is_in, single, target_of, word_after};
use occam_parser::{Expr, ValueType};
use program_uses::{PlaceRef, Signature, parameter_at, place_in};
use scalar_ranges::{ArrayKind, Meaning, ScalarKind, range_of, type_range};
use std::alloc::{AllocError, Global};
use std::collections::BTreeSet;
use std::rc::Rc;
use word_arithmetic::Range;

/// What an instance passes to the parameters of a procedure.
#[derive(Clone, Copy)]
pub(crate) struct Passed<'s, 'p, 'a> {
    pub(crate) signatures: &'s [Signature],
    pub(crate) procedure: Option<Meaning>,
    pub(crate) actuals: &'p [Expr<'a>],
}

impl Passed<'_, '_, '_> {
    /// What the parameter at a place is in the procedure.
    fn meaning(self, place: usize) -> Option<Meaning>
        ensures { option_map meaning_of result ≡ meaning_at place (parameters_of self.entry) }
    {
        match parameter_at(self.signatures, self.procedure, place) {
            Some(parameter) => Some(parameter.meaning),
            None => None,
        }
    }
}

// ---- formals

/// A table as a procedure has it that it is passed to: the ends of its type's range are behind its values.
fn passed_table(alloc: Global, values: &[i32], value_type: ValueType) -> Result<Home, AllocError>
    ensures { IfOk result (λ h. home_seen h ≡ Table (with_ends (type_range value_type) values.now)) }
{
    let range = type_range(value_type);
    let mut passed = Vec::with_capacity(alloc, values.len() + 2)?;
    passed.extend_from_slice(values)?;
    passed.push(range.lo)?;
    passed.push(range.hi)?;
    Ok(Home::Table(Rc::new(alloc, passed)?))
}

/// A place as a procedure has it that it is passed to, by what it is.
fn as_passed(alloc: Global, meaning: Option<Meaning>, home: &Home) -> Result<Home, AllocError>
    ensures { IfOk result (λ h. home_seen h
        ≡ as_passed (option_map meaning_of meaning) (Some (home_seen home.now))) }
{
    match (home, meaning) {
        (Home::Word(word), _) => Ok(Home::Passed(*word)),
        (
            Home::Table(values),
            Some(
                Meaning::Array {
                    kind: ArrayKind::Table,
                    value_type,
                    ..
                },
            ),
        ) => passed_table(alloc, values, value_type),
        _ => home.copy(),
    }
}

/// Where an element of an array of channels is.
fn element_home(home: &Home, number: Option<i32>) -> Result<Home, AllocError>
    ensures { IfOk result (λ h. Some (home_seen h) ≡ element_home number (Some (home_seen home.now))) }
{
    match (home, number) {
        (Home::Word(word), Some(number)) => Ok(Home::Word(word_after(
            *word,
            number.unsigned_abs(),
        ))),
        (Home::Passed(word), Some(number)) => {
            Ok(Home::Passed(word_after(*word, number.unsigned_abs())))
        }
        _ => home.copy(),
    }
}

/// Where a place is, as a procedure has it that it is passed to.
fn passed_place(alloc: Global, setting: Setting, place: PlaceRef) -> Result<Home, AllocError>
    ensures { IfOk result (λ h. home_seen h
        ≡ passed_place (homes_in setting.entry) (entries_in setting.entry) (Some (place_at place.entry))) }
{
    let meaning = setting.scope.meaning(place.name);
    match (setting.home(place.name), place.subscript) {
        (None, _) => Ok(Home::Nowhere),
        (Some(home), None) => as_passed(alloc, meaning, home),
        (Some(home), Some(subscript)) => {
            let element = element_home(home, single(range_of(setting.scope, subscript)))?;
            as_passed(alloc, meaning, &element)
        }
    }
}

/// Where an actual is, as a procedure has it that it is passed to.
fn passed_home(alloc: Global, setting: Setting, actual: &Expr) -> Result<Home, AllocError>
    ensures { IfOk result (λ h. home_seen h
        ≡ passed_home (homes_in setting.entry) (entries_in setting.entry) (expression_of actual.now)) }
{
    match place_in(actual) {
        Some(place) => passed_place(alloc, setting, place),
        None => Ok(Home::Nowhere),
    }
}

/// How many values the tables have that are passed. No clause says it: it bounds the memory that these take.
pub(crate) fn values_passed(setting: Setting, passed: Passed) -> usize {
    let mut count: usize = 0;
    for actual in passed.actuals {
        if let Some(place) = place_in(actual) {
            if let Some(Home::Table(values)) = setting.home(place.name) {
                count = count.saturating_add(values.len());
            }
        }
    }
    count
}

/// An actual, for a parameter with this meaning: the value of a `VAL` scalar is stored in a word of its own.
fn write_binding(
    alloc: Global,
    listing: &mut Listing,
    setting: Setting,
    parameter: Option<Meaning>,
    actual: &Expr,
    frame: &mut Frame,
) -> Result<(), AllocError>
    ensures code { IfOk result (λ _. listing.new ≡ listing.old ++ binding_code (homes_in setting.entry)
        (entries_in setting.entry) (option_map meaning_of parameter) (expression_of actual.now) frame.old.top) }
    ensures frame { IfOk result (λ _. frame_seen frame.new ≡ bound (homes_in setting.entry)
        (entries_in setting.entry) (option_map meaning_of parameter) (expression_of actual.now)
        (frame_seen frame.old)) }
{
    match parameter {
        Some(
            Meaning::Scalar {
                kind: ScalarKind::Value,
                ..
            },
        ) => {
            let top = frame.top;
            listing.write_expression(Setting { top, ..setting }, actual)?;
            listing.store(top)?;
            frame.add_words(1)
        }
        _ => frame.add_home(passed_home(alloc, setting, actual)?),
    }
}

/// All actuals. The frame is that of the procedure, which has a place for each parameter then.
pub(crate) fn write_bindings(
    alloc: Global,
    listing: &mut Listing,
    setting: Setting,
    passed: Passed,
    frame: &mut Frame,
) -> Result<(), AllocError>
    ensures code { IfOk result (λ _. listing.new ≡ listing.old ++ bindings_code (homes_in setting.entry)
        (entries_in setting.entry) (parameters_of passed.entry) 0 (actuals_of passed.entry)
        (frame_seen frame.old)) }
    ensures frame { IfOk result (λ _. frame_seen frame.new ≡ all_bound (homes_in setting.entry)
        (entries_in setting.entry) (parameters_of passed.entry) 0 (actuals_of passed.entry)
        (frame_seen frame.old)) }
{
    for (place, actual) in passed.actuals.iter().enumerate() {
        write_binding(
            alloc,
            listing,
            setting,
            passed.meaning(place),
            actual,
            frame,
        )?;
    }
    Ok(())
}

// ---- variables that are passed

/// The scalar that an actual is, if its parameter is a variable.
fn passed_target<'e, 'a>(
    setting: Setting,
    parameter: Option<Meaning>,
    actual: &'e Expr<'a>,
) -> Target<'e, 'a>
    ensures { target_seen setting.entry result ≡ passed_target (homes_in setting.entry) (entries_in setting.entry)
        setting.entry.top (option_map meaning_of parameter) (expression_of actual.now) }
{
    match (parameter, place_in(actual)) {
        (
            Some(
                Meaning::Scalar {
                    kind: ScalarKind::Reference,
                    ..
                },
            ),
            Some(place),
        ) => target_of(setting, place),
        _ => Target::Nothing,
    }
}

/// Words that may be stored into in a procedure.
#[derive(Drop)]
struct Words {
    found: BTreeSet<u32>,
}

impl Words {
    /// One word more, if the target is one.
    fn add(&mut self, setting: Setting, target: Target) -> Result<(), AllocError>
        ensures { IfOk result (λ _. (word : ℕ) → is_found self.new word
            ≡ with_target (target_seen setting.entry target.entry) (is_found self.old) word) }
    {
        match target {
            Target::Word { word, .. } => {
                self.found.insert(word)?;
                Ok(())
            }
            Target::Nothing | Target::Known { .. } | Target::Other { .. } => Ok(()),
        }
    }

    /// What is known of words, but that nothing is known of the number in one of these.
    fn forgotten(&self, entry: RowEntry) -> RowEntry
        ensures { result ≡ unknown_in (is_found self.now) entry }
    {
        if self.found.contains(&entry.word) {
            is_in(entry.word, 1, Range::full())
        } else {
            entry
        }
    }

    /// The same of all that is known.
    fn all_forgotten(
        &self,
        alloc: Global,
        entries: &[RowEntry],
    ) -> Result<Vec<RowEntry>, AllocError>
        ensures { IfOk result (λ rs. rs.items ≡ map (unknown_in (is_found self.now)) entries.now) }
    {
        let mut known = Vec::with_capacity(alloc, entries.len())?;
        for entry in entries {
            known.push(self.forgotten(*entry))?;
        }
        Ok(known)
    }
}

/// What is known outside of a procedure, of what is known where it is called.
pub(crate) fn all_forgotten(
    alloc: Global,
    setting: Setting,
    passed: Passed,
    entries: Vec<RowEntry>,
) -> Result<Vec<RowEntry>, AllocError>
    ensures { IfOk result (λ rs. rs.items ≡ all_forgotten (homes_in setting.entry) (entries_in setting.entry)
        setting.entry.top (parameters_of passed.entry) 0 (actuals_of passed.entry) entries.items) }
{
    let mut words = Words {
        found: BTreeSet::new(alloc),
    };
    for (place, actual) in passed.actuals.iter().enumerate() {
        words.add(
            setting,
            passed_target(setting, passed.meaning(place), actual),
        )?;
    }
    words.all_forgotten(alloc, &entries)
}

/// After the body of a procedure each BYTE scalar that was passed as a variable has its byte alone again.
pub(crate) fn write_cleaning(
    listing: &mut Listing,
    setting: Setting,
    passed: Passed,
) -> Result<(), AllocError>
    ensures { IfOk result (λ _. listing.new ≡ listing.old ++ cleaning_code (homes_in setting.entry)
        (entries_in setting.entry) setting.entry.top (parameters_of passed.entry) 0 (actuals_of passed.entry)) }
{
    for (place, actual) in passed.actuals.iter().enumerate() {
        let target = passed_target(setting, passed.meaning(place), actual);
        listing.write_cleaned(setting, target)?;
    }
    Ok(())
}
