//! What a context may do with the words of its frame and with channels.

ghost use Rattle.std.specs.Prelude.{◌≡◌, ◌+◌, true, false, MatchOption, slice_get};
ghost use Rattle.std.specs.List.{list_any};
ghost use Rattle.module_format.specs.declared.rows.EndRow.{EndRow};
ghost use Rattle.module_format.specs.Order.{InOrder, least_word};
ghost use Rattle.module_format.specs.Pars.{IntervalKeeps, behind_interval, ChannelKeeps, behind_channel, EndKeeps};
ghost use Rattle.module_format.specs.Pars.{behind_end, first_key, key_of};
ghost use Rattle.certificate.specs.Rights.{is_among, listed_length, gives_link, gives_element, gives_parameter};
ghost use Rattle.certificate.specs.Rights.{is_same_end};
ghost use Rattle.certificate.specs.Runs.{IsRunCount};

use crate::modules::Module;
use crate::runs::ChannelRun;
use bitflags::Flags;
use module_format::{
    ChannelRow, Direction, EndKind, EndRow, Ends, Interval, Parameter, ParameterKind,
};

/// Whether a word is one of the intervals', which rise. It takes time logarithmic in them.
pub fn is_among(intervals: &[Interval], word: i64) -> bool
    requires { InOrder IntervalKeeps behind_interval least_word intervals.now }
    ensures { result ≡ is_among intervals.now word }
{
    let first = intervals.partition_point(|interval| i64::from(interval.hi) <= word);
    match intervals.get(first) {
        Some(interval) => i64::from(interval.lo) <= word,
        None => false,
    }
}

/// The length that channels, which rise, give the one in a word.
pub(crate) fn listed_length(channels: &[ChannelRow], word: i32) -> Option<u32>
    requires { InOrder ChannelKeeps behind_channel least_word channels.now }
    ensures { result ≡ listed_length channels.now word }
{
    let index = channels.partition_point(|channel| channel.word < word);
    let channel = channels.get(index)?;
    if channel.word != word {
        return None;
    }
    Some(channel.length)
}

/// Whether links with these lengths give the root an end.
fn gives_link(lengths: &[u32; 8], end: &EndRow) -> bool
    ensures { result ≡ gives_link lengths.now end.now.kind end.now.direction }
{
    let EndKind::Link(link) = end.kind else {
        return false;
    };
    let goes_there = match end.direction {
        Direction::Out => link < 4,
        Direction::In => link > 3,
    };
    if !goes_there || link > 7 {
        return false;
    }
    lengths[usize::from(link)] > 0
}

/// Whether channels have one with this number, and their ends in this direction.
fn gives_element(kind: &ParameterKind, element: u32, direction: Direction) -> bool
    ensures { result ≡ gives_element kind.now element direction }
{
    match kind {
        ParameterKind::Channels { count, ends, .. } => {
            let wanted = match direction {
                Direction::In => Ends::IN,
                Direction::Out => Ends::OUT,
            };
            element < *count && ends.intersects(wanted)
        }
        _ => false,
    }
}

/// Whether parameters give a procedure an end.
fn gives_parameter(parameters: &[Parameter], end: &EndRow) -> bool
    ensures { result ≡ gives_parameter parameters.now end.now.kind end.now.direction }
{
    let EndKind::Parameter { number, element } = end.kind else {
        return false;
    };
    if number < 0 {
        return false;
    }
    match parameters.get(number as usize) {
        Some(parameter) => gives_element(&parameter.kind, element, end.direction),
        None => false,
    }
}

/// From an element on, how many of a parameter's channels there are, with their ends in this direction.
fn elements_in(kind: &ParameterKind, element: u32, direction: Direction) -> u32
    ensures { IsRunCount (λ i. gives_element kind.now (element + i) direction) result }
{
    if !gives_element(kind, element, direction) {
        return 0;
    }
    match kind {
        ParameterKind::Channels { count, .. } => count.saturating_sub(element),
        _ => 0,
    }
}

/// Where an end is among others, which rise. It takes time logarithmic in them.
pub(crate) fn place_of(others: &[EndRow], end: &EndRow) -> Option<usize>
    requires { InOrder EndKeeps behind_end first_key others.now }
    ensures { let is_it = λ (other : EndRow). is_same_end (key_of other) (key_of end.now) in
        MatchOption result (list_any is_it others.now ≡ false)
        (λ index. MatchOption (slice_get others.now index) ⊥ (λ other. is_it other ≡ true)) }
{
    let key = end.key();
    let first = others.partition_point(|other| other.key().is_below(&key));
    let other = others.get(first)?;
    if other.key() == key {
        Some(first)
    } else {
        None
    }
}

/// Whether an end is among others, which rise. It takes time logarithmic in them.
fn lists_end(others: &[EndRow], end: &EndRow) -> bool
    requires { InOrder EndKeeps behind_end first_key others.now }
    ensures { result ≡ list_any (λ other. is_same_end (key_of other) (key_of end.now)) others.now }
{
    place_of(others, end).is_some()
}

impl Module<'_> {
    ghost use Rattle.std.specs.Prelude.{◌≡◌, ◌+◌, None, false, MatchOption};
    ghost use Rattle.module_format.specs.Contexts.{context_at, parameters_at};
    ghost use Rattle.certificate.specs.Rights.{gives_parameter};
    ghost use Rattle.certificate.specs.Runs.{IsFirstRun, IsRun, IsRunCount, held_from, held_further, has_element};
    ghost use Rattle.certificate.specs.Runs.{branch_lists, element_end};
    ghost use Rattle.certificate.specs.Rights.{has_word, may_write_word, may_read_word, channel_length, has_end};

    /// Whether a word is one of a context's frame.
    fn has_word(&self, context: u32, word: i64) -> bool
        ensures { result ≡ has_word (context_at self.now context) word }
    {
        match self.context(context) {
            Some(frame) => frame.lo <= word && word < frame.hi,
            None => false,
        }
    }

    /// Whether a context may write a word of its frame: the root and the procedures each, a branch those
    /// that its row names. It takes time logarithmic in the intervals of the row.
    pub fn may_write_word(&self, context: u32, word: i64) -> bool
        ensures { result ≡ may_write_word self.now context word }
    {
        if !self.has_word(context, word) {
            return false;
        }
        match self.branch(context) {
            Some((_row, branch)) => is_among(&branch.writes, word),
            None => true,
        }
    }

    /// Whether a context may read a word of its frame: the root and the procedures each, a branch those
    /// that its row lets it write or read. It takes time logarithmic in the intervals of the row.
    pub fn may_read_word(&self, context: u32, word: i64) -> bool
        ensures { result ≡ may_read_word self.now context word }
    {
        if !self.has_word(context, word) {
            return false;
        }
        match self.branch(context) {
            Some((_row, branch)) => {
                is_among(&branch.writes, word) || is_among(&branch.reads, word)
            }
            None => true,
        }
    }

    /// The run of channels from that of an end on of which a branch has the ends in this direction; `None` where the
    /// context is no branch, or has not this end. It takes time logarithmic in the ends.
    fn run_from(&self, context: u32, end: &EndRow) -> Option<ChannelRun>
        ensures { let lists = branch_lists self.now context in
            MatchOption result (lists end.now ≡ false)
            (IsFirstRun (held_further lists (channel_length self.now context) end.now)) }
    {
        self.context(context)?;
        let (_row, branch) = self.branch(context)?;
        let place = place_of(&branch.ends, end)?;
        let runs = self.runs(context)?;
        Some(runs[place])
    }

    /// The neighbouring channels from the one in a frame word on of which a context has the ends in a direction,
    /// as far as they have one length; `None` where it has no end of that one. The root and the procedures have no
    /// end of a frame word. It takes time logarithmic in the ends of the branch, whatever is around it.
    pub fn channels_from(&self, context: u32, word: i32, direction: Direction) -> Option<ChannelRun>
        ensures { MatchOption result (held_from self.now context direction word ≡ None)
            (IsRun (held_from self.now context direction) word) }
    {
        let kind = EndKind::FrameWord(word);
        self.run_from(context, &EndRow { kind, direction })
    }

    /// From an element of a parameter's channels on, how many neighbouring ones there are of which the procedure with
    /// this context has the ends in a direction.
    fn elements_given(&self, context: u32, number: i32, element: u32, direction: Direction) -> u32
        ensures { let parameters = parameters_at self.now context in
            IsRunCount (λ i. gives_parameter parameters (element_end number (element + i) direction).kind direction)
            result }
    {
        if number < 0 {
            return 0;
        }
        match self.parameters(context).get(number as usize) {
            Some(parameter) => elements_in(&parameter.kind, element, direction),
            None => 0,
        }
    }

    /// From an element of the channels of a parameter of its procedure on, how many neighbouring ones there are of which
    /// a context has the ends in a direction; 0 where it has no end of that one. It takes time logarithmic in the ends
    /// of a branch.
    pub fn elements_from(
        &self,
        context: u32,
        number: i32,
        element: u32,
        direction: Direction,
    ) -> u32
        ensures { IsRunCount (has_element self.now context number element direction) result }
    {
        if self.context(context).is_none() {
            return 0;
        }
        if self.branch(context).is_none() {
            if context == 0 {
                return 0;
            }
            return self.elements_given(context, number, element, direction);
        }
        let kind = EndKind::Parameter { number, element };
        match self.run_from(context, &EndRow { kind, direction }) {
            Some(run) => run.count,
            None => 0,
        }
    }

    /// What the nearest PAR row says that lists a word, of those around the context. It takes time logarithmic in the
    /// channels of each.
    fn length_around(&self, context: u32, word: i32) -> Option<u32>
        ensures { result ≡ channel_length self.now context word }
    {
        let mut number = context;
        for _ in 0..self.tables().pars.len() {
            let (row, _branch) = self.branch(number)?;
            if let Some(length) = listed_length(&row.channels, word) {
                return Some(length);
            }
            number = u32::from(row.context);
        }
        None
    }

    /// The bytes of the messages of the channel in a frame word: what the nearest PAR row says that lists
    /// the word, of those around the context. Where the context has an end of the channel, it takes time logarithmic
    /// in its ends; else it looks in each row around, in time logarithmic in the channels of each.
    pub fn channel_length(&self, context: u32, word: i32) -> Option<u32>
        ensures { result ≡ channel_length self.now context word }
    {
        if let Some(run) = self.channels_from(context, word, Direction::In) {
            return run.length;
        }
        if let Some(run) = self.channels_from(context, word, Direction::Out) {
            return run.length;
        }
        self.length_around(context, word)
    }

    /// Whether a context has an end of a channel: the root those of the links that have a length, a
    /// procedure those that its parameters bring, and a branch those that its row lists. For a branch it
    /// takes time logarithmic in these.
    pub fn has_end(&self, context: u32, end: EndRow) -> bool
        ensures { result ≡ has_end self.now context end }
    {
        if self.context(context).is_none() {
            return false;
        }
        match self.branch(context) {
            Some((_row, branch)) => lists_end(&branch.ends, &end),
            None => {
                if context == 0 {
                    gives_link(&self.tables().lengths, &end)
                } else {
                    gives_parameter(self.parameters(context), &end)
                }
            }
        }
    }
}
