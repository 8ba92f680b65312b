//! What to write in place of a word of occam 2 that this language lacks.

ghost use Rattle.std.specs.Prelude.{◌≡◌, bytes_eq, map, option_copied, option_map};
ghost use Rattle.std.specs.List.{find};
ghost use Rattle.reason_texts.specs.Hints.{row_of, lacked_words, word_hint};

/// A word, and what to write in its place.
macro_rules! lacked {
    ($word:literal $instead:literal) => {
        ($word, concat!("this language has no ", $word, $instead))
    };
}

/// The words, each with what to write in its place: those that begin a construct, of types, of declarations, and between
/// or before operands.
static LACKED_WORDS: [(&str, &str); 25] = [
    lacked!("WHILE" "; a loop has a constant count: SEQ i = 0 FOR n"),
    lacked!("CASE" "; write an IF whose choices are as x = 1"),
    lacked!("PRI" "; write ALT or PAR"),
    lacked!("PLACED" "; each processor has its own module"),
    lacked!("BOOL" "; write INT, with 1 and 0"),
    lacked!("TIMER" ", and knows no time"),
    lacked!("PORT" "; channels alone lead out"),
    lacked!("REAL32" "; its types are INT and BYTE"),
    lacked!("REAL64" "; its types are INT and BYTE"),
    lacked!("INT16" "; its types are INT and BYTE"),
    lacked!("INT32" "; its types are INT and BYTE"),
    lacked!("INT64" "; its types are INT and BYTE"),
    lacked!("FUNCTION" "; write a PROC with a parameter for the result"),
    lacked!("VALOF" "; write a PROC with a parameter for the result"),
    lacked!("RESULT" "; write a PROC with a parameter for the result"),
    lacked!("PROTOCOL" "; the messages of a channel are INT or BYTE"),
    lacked!("RETYPES" "; INT x and BYTE x are conversions"),
    lacked!("PLACE" "; the links are the parameters of main"),
    lacked!("REM" "; write x \\ y"),
    lacked!("SIZE" "; write the number, or a constant"),
    lacked!("AFTER" "; write (x MINUS y) > 0"),
    lacked!("FROM" "; write a SEQ over the elements"),
    lacked!("BITAND" "; write x /\\ y"),
    lacked!("BITOR" "; write x \\/ y"),
    lacked!("BITNOT" "; write ~x"),
];

/// The words, as rows of a table.
fn lacked_words() -> &'static [(&'static str, &'static str)]
    ensures { map row_of result.now ≡ lacked_words }
{
    &LACKED_WORDS
}

/// The row of a word, if it has one.
fn row_for<'r, 's>(rows: &'r [(&'s str, &'s str)], word: &[u8]) -> Option<&'r (&'s str, &'s str)>
    ensures { option_copied result ≡ find (λ r. bytes_eq word.now r.0.now) rows.now }
{
    rows.iter().find(|row| word == row.0.as_bytes())
}

/// What to write in place of a word, if this language lacks it.
pub(crate) fn word_hint(word: &[u8]) -> Option<&'static str>
    ensures { option_map (λ h. h.now) result ≡ word_hint word.now }
{
    match row_for(lacked_words(), word) {
        Some(row) => Some(row.1),
        None => None,
    }
}
