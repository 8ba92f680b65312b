//! Cases in text: how they are written and judged, and the whole of a program that tries them but what they ask. Such a
//! program may also repeat a call on the bytes of a file, so that its time can be taken.
//!
//! A case is a statement in a text: a word at the start of a line, what follows on the line, and the indented lines
//! below it. The statements of a text are taken one after the other by a `Subject`, which is what they are about. One
//! of them may say something that the later ones read, as which file they are about, or ask something and say the
//! answer that is expected. Each answer is a text too, so that it is judged by comparing two texts. Blank lines and
//! lines that begin with `#` say nothing. What a subject is for a text is said by its kind.
#![tactic(auto)]

mod answer;
mod cases;
mod kind;
mod outcome;
mod repeating;
mod report;
mod statements;
mod subject;

pub use answer::Answer;
pub use cases::try_text;
pub use kind::Kind;
pub use outcome::{Outcome, judged};
pub use repeating::{Calls, Failure, mixed, refusal, try_or_repeat};
pub use report::Report;
pub use statements::{Statement, unindented};
pub use subject::Subject;
