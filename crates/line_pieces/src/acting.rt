//! Writing the code of assignments, inputs, outputs and tests. If a function fails, some pieces more may have come.

ghost use Rattle.std.specs.Prelude.{◌≡◌, ◌++◌, ◌∷◌, [], ◌*◌, IfOk, option_map, pos};
ghost use Rattle.occam_parser.specs.LineViews.{place_of};
ghost use Rattle.occam_parser.specs.Views.{expression_of};
ghost use Rattle.scalar_ranges.specs.Scopes.{meaning_of};
ghost use Rattle.line_pieces.specs.HomeViews.{home_seen};
ghost use Rattle.code_pieces.specs.Pieces.{moves, counted};
ghost use Rattle.line_pieces.specs.Actions.{stores_below, store_known, store_code, assign_code, target_address};
ghost use Rattle.line_pieces.specs.Actions.{channel_code, element_home, channel_home, length_of, carried, exchange};
ghost use Rattle.line_pieces.specs.Actions.{stores_at, store_other, stored_offset};
ghost use Rattle.line_pieces.specs.Actions.{link_code, cleaned, input_code, output_code, test_code, message_code};
ghost use Rattle.line_pieces.specs.Noted.{place_code};
ghost use Rattle.line_pieces.specs.SettingViews.{entries_in, homes_in, subscript_in, expression_in};
ghost use Rattle.line_pieces.specs.TargetViews.{target_seen};

use crate::conditions::may_show;
use crate::expressions::{is_small, offset_of, or_zero, single};
use crate::home::Home;
use crate::listing::Listing;
use crate::noting::{Access, ChannelEnd, ChannelPlace, Way};
use crate::setting::{Setting, word_after};
use crate::targets::{Target, source_of, target_of};
use code_pieces::{GREATEST_WORD, Piece, operations};
use occam_parser::{Expr, Place, ValueType};
use prefix_decoder::Fun;
use program_uses::place_ref;
use scalar_ranges::{Meaning, range_of, test_of};
use std::alloc::AllocError;

impl Listing {
    /// Copies `count` words from one place of the frame to another.
    pub(crate) fn write_moves(&mut self, count: u32, from: u32, to: u32) -> Result<(), AllocError>
        ensures { IfOk result (λ _. self.new ≡ self.old ++ moves count from to) }
    {
        self.point(from)?;
        self.point(to)?;
        self.constant(bytes_of_words(count))?;
        self.operate(operations::MOVE)
    }

    /// What is in B goes so many words behind the address in A, or a byte to that.
    fn write_store_at(&mut self, value_type: ValueType, offset: i32) -> Result<(), AllocError>
        ensures { IfOk result (λ _. self.new ≡ self.old ++ stores_at value_type offset ∷ []) }
    {
        match value_type {
            ValueType::Int => self.direct(Fun::StoreNonLocal, offset),
            ValueType::Byte => self.operate(operations::STORE_BYTE),
        }
    }

    /// What is in a temporary goes there.
    fn write_store_below(
        &mut self,
        value_type: ValueType,
        offset: i32,
        temporary: u32,
    ) -> Result<(), AllocError>
        ensures { IfOk result (λ _. self.new ≡ self.old ++ stores_below value_type offset temporary) }
    {
        self.push_below(temporary)?;
        self.write_store_at(value_type, offset)
    }

    /// What is in a temporary is stored in an element.
    fn write_store_known(
        &mut self,
        value_type: ValueType,
        word: u32,
        number: u32,
        temporary: u32,
    ) -> Result<(), AllocError>
        ensures { IfOk result (λ _. self.new ≡ self.old ++ store_known value_type word number temporary) }
    {
        match value_type {
            ValueType::Int => self.write_moves(1, temporary, word_after(word, number)),
            ValueType::Byte => {
                self.write_known_address(value_type, word, number)?;
                self.write_store_below(value_type, 0, temporary)
            }
        }
    }

    /// What is in A is stored in an element whose number varies. If its subscript takes three registers, it waits in a
    /// temporary.
    fn write_store_other(
        &mut self,
        setting: Setting,
        value_type: ValueType,
        word: u32,
        subscript: &Expr,
        temporary: u32,
    ) -> Result<(), AllocError>
        ensures { IfOk result (λ _. self.new ≡ self.old ++ store_other value_type word
            (subscript_in setting.entry (expression_of subscript.now)) temporary) }
    {
        let offset = stored_offset(value_type, offset_of(setting.scope, subscript));
        if is_small(setting.scope, subscript) {
            self.write_without(setting, offset, subscript)?;
            self.write_subscript(value_type, word)?;
            return self.write_store_at(value_type, or_zero(offset));
        }
        self.store(temporary)?;
        self.write_without(setting, offset, subscript)?;
        self.write_subscript(value_type, word)?;
        self.write_store_below(value_type, or_zero(offset), temporary)
    }

    /// What is in A is stored, maybe by way of a temporary if the target is an element.
    fn write_store(
        &mut self,
        setting: Setting,
        target: Target,
        temporary: u32,
    ) -> Result<(), AllocError>
        ensures { IfOk result (λ _. self.new
            ≡ self.old ++ store_code (target_seen setting.entry target.entry) temporary) }
    {
        match target {
            Target::Nothing => Ok(()),
            Target::Word { word, .. } => self.store(word),
            Target::Known {
                value_type,
                word,
                number,
            } => {
                self.store(temporary)?;
                self.write_store_known(value_type, word, number, temporary)
            }
            Target::Other {
                value_type,
                word,
                subscript,
            } => self.write_store_other(setting, value_type, word, subscript, temporary),
        }
    }

    /// What a target is a part of is read or written.
    fn note_target(&mut self, target: Target, access: Access) -> Result<(), AllocError>
        ensures { IfOk result (λ _. self.new ≡ self.old) }
    {
        match target {
            Target::Nothing => Ok(()),
            Target::Word { word, .. } | Target::Known { word, .. } | Target::Other { word, .. } => {
                self.notes.note_word(word, access)
            }
        }
    }

    /// An assignment.
    pub fn write_assignment(
        &mut self,
        setting: Setting,
        target: &Place,
        value: &Expr,
    ) -> Result<(), AllocError>
        ensures { IfOk result (λ _. self.new ≡ self.old ++ assign_code (homes_in setting.entry)
            (entries_in setting.entry) setting.entry.top (place_of target.now) (expression_of value.now)) }
    {
        let above = setting.above();
        let target = target_of(above, place_ref(target));
        self.write_expression(setting, value)?;
        self.note_target(target, Access::Writes)?;
        self.write_store(above, target, setting.top)
    }

    /// The address of what is stored into.
    fn write_target_address(&mut self, setting: Setting, target: Target) -> Result<(), AllocError>
        ensures { IfOk result (λ _. self.new
            ≡ self.old ++ target_address (target_seen setting.entry target.entry)) }
    {
        match target {
            Target::Nothing => Ok(()),
            Target::Word { word, .. } => self.point(word),
            Target::Known {
                value_type,
                word,
                number,
            } => self.write_known_address(value_type, word, number),
            Target::Other {
                value_type,
                word,
                subscript,
            } => {
                self.write_expression(setting, subscript)?;
                self.write_subscript(value_type, word)
            }
        }
    }

    /// The word of a BYTE scalar has its byte alone, which came in.
    pub fn write_cleaned(&mut self, setting: Setting, target: Target) -> Result<(), AllocError>
        ensures { IfOk result (λ _. self.new ≡ self.old ++ cleaned (target_seen setting.entry target.entry)) }
    {
        match target {
            Target::Word {
                value_type: ValueType::Byte,
                word,
            } => {
                self.notes.note_word(word, Access::Writes)?;
                self.point(word)?;
                self.operate(operations::LOAD_BYTE)?;
                self.store(word)
            }
            _ => Ok(()),
        }
    }

    /// The address of a link.
    pub fn write_link(&mut self, number: u8) -> Result<(), AllocError>
        ensures { IfOk result (λ _. self.new ≡ self.old ++ link_code number) }
    {
        self.operate(operations::MINIMUM_INTEGER)?;
        if number != 0 {
            self.direct(Fun::LoadNonLocalPointer, i32::from(number))?;
        }
        Ok(())
    }

    /// The address of a channel.
    fn write_channel(&mut self, setting: Setting, channel: &Place) -> Result<(), AllocError>
        ensures { IfOk result (λ _. self.new ≡ self.old
            ++ channel_code (channel_home (homes_in setting.entry) (entries_in setting.entry) (place_of channel.now))) }
    {
        match channel_at(setting, channel) {
            Some(ChannelPlace::Link(number)) => self.write_link(number),
            Some(ChannelPlace::Word(word)) => self.point(word),
            None => Ok(()),
        }
    }

    /// An end of a channel is used.
    fn note_channel(
        &mut self,
        setting: Setting,
        channel: &Place,
        way: Way,
    ) -> Result<(), AllocError>
        ensures { IfOk result (λ _. self.new ≡ self.old) }
    {
        let Some(place) = channel_at(setting, channel) else {
            return Ok(());
        };
        let length = message_length(setting.scope.meaning(channel.name));
        let end = ChannelEnd { place, way };
        self.notes.note_end(end, length.unsigned_abs())
    }

    /// The channel, the length of its messages and `in` or `out`, after the address of a message.
    fn write_exchange(
        &mut self,
        setting: Setting,
        channel: &Place,
        operation: i32,
    ) -> Result<(), AllocError>
        ensures { IfOk result (λ _. self.new ≡ self.old
            ++ exchange (homes_in setting.entry) (entries_in setting.entry) (place_of channel.now) operation) }
    {
        self.write_channel(setting, channel)?;
        self.constant(message_length(setting.scope.meaning(channel.name)))?;
        self.operate(operation)
    }

    /// An input.
    pub fn write_input(
        &mut self,
        setting: Setting,
        channel: &Place,
        target: &Place,
    ) -> Result<(), AllocError>
        ensures { IfOk result (λ _. self.new ≡ self.old ++ input_code (homes_in setting.entry)
            (entries_in setting.entry) setting.entry.top (place_of channel.now) (place_of target.now)) }
    {
        let target = target_of(setting, place_ref(target));
        self.note_target(target, Access::Writes)?;
        self.write_target_address(setting, target)?;
        self.note_channel(setting, channel, Way::In)?;
        self.write_exchange(setting, channel, operations::INPUT)?;
        self.write_cleaned(setting, target)
    }

    /// The address of a message: where its value is already, or else a temporary in which it is stored.
    fn write_message(
        &mut self,
        setting: Setting,
        source: Target,
        value: &Expr,
    ) -> Result<(), AllocError>
        ensures { IfOk result (λ _. self.new ≡ self.old
            ++ message_code (target_seen setting.entry source.entry) setting.entry.top
            (expression_in setting.entry (expression_of value.now))) }
    {
        match source {
            Target::Nothing => {
                self.write_expression(setting, value)?;
                self.store(setting.top)?;
                self.point(setting.top)
            }
            Target::Word { .. } | Target::Known { .. } | Target::Other { .. } => {
                self.write_target_address(setting, source)
            }
        }
    }

    /// An output.
    pub fn write_output(
        &mut self,
        setting: Setting,
        channel: &Place,
        value: &Expr,
    ) -> Result<(), AllocError>
        ensures { IfOk result (λ _. self.new ≡ self.old ++ output_code (homes_in setting.entry)
            (entries_in setting.entry) setting.entry.top (place_of channel.now) (expression_of value.now)) }
    {
        let source = source_of(setting, value);
        self.note_target(source, Access::Reads)?;
        self.write_message(setting, source, value)?;
        self.note_channel(setting, channel, Way::Out)?;
        self.write_exchange(setting, channel, operations::OUTPUT)
    }

    /// A condition, and a jump to a label where it does not hold.
    pub fn write_test(
        &mut self,
        setting: Setting,
        condition: &Expr,
        label: usize,
    ) -> Result<(), AllocError>
        ensures { IfOk result (λ _. self.new ≡ self.old ++ test_code (homes_in setting.entry) (entries_in setting.entry)
            setting.entry.top (expression_of condition.now) label) }
    {
        self.write_expression(setting, condition)?;
        if may_show(setting.scope, condition) && test_of(setting.scope, condition).is_none() {
            self.direct(Fun::AddConstant, 0)?;
        }
        self.push(Piece::JumpUnless { to: label })
    }
}

/// Where a channel is, if it is somewhere.
fn channel_at(setting: Setting, channel: &Place) -> Option<ChannelPlace>
    ensures { place_code result
        ≡ channel_code (channel_home (homes_in setting.entry) (entries_in setting.entry) (place_of channel.now)) }
{
    match (setting.home(channel.name), &channel.subscript) {
        (Some(Home::Link(number)), _) => Some(ChannelPlace::Link(*number)),
        (Some(Home::Word(word) | Home::Passed(word)), None) => Some(ChannelPlace::Word(*word)),
        (Some(Home::Word(word) | Home::Passed(word)), Some(subscript)) => {
            match single(range_of(setting.scope, subscript)) {
                Some(number) => {
                    let word = word_after(*word, number.unsigned_abs());
                    Some(ChannelPlace::Word(word))
                }
                None => Some(ChannelPlace::Word(*word)),
            }
        }
        _ => None,
    }
}

/// The constant that a subscript ends with, for words.
fn stored_offset(value_type: ValueType, offset: Option<i32>) -> Option<i32>
    ensures { result ≡ stored_offset value_type offset }
{
    match value_type {
        ValueType::Int => offset,
        ValueType::Byte => None,
    }
}

/// How many bytes some words have, as far as words are counted.
#[tactic(auto, unfolding(code_pieces::specs::Pieces::counted))]
fn bytes_of_words(count: u32) -> i32
    ensures { result ≡ pos (4 * counted count) }
{
    (4 * count.min(GREATEST_WORD)) as i32
}

/// How many bytes a message of a channel has that means this.
fn message_length(channel: Option<Meaning>) -> i32
    ensures { result ≡ length_of (carried (option_map meaning_of channel)) }
{
    match channel {
        Some(
            Meaning::Channel {
                value_type: ValueType::Byte,
            }
            | Meaning::Channels {
                value_type: ValueType::Byte,
                ..
            },
        ) => 1,
        _ => 4,
    }
}
