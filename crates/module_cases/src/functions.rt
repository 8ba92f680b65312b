//! The names of functions.

use prefix_decoder::Fun;

/// The names of the functions, by their codes.
const FUNCTIONS: [&str; 16] = [
    "j", "ldlp", "pfix", "ldnl", "ldc", "ldnlp", "nfix", "ldl", "adc", "call", "cj", "ajw", "eqc",
    "stl", "stnl", "opr",
];

/// The function of this name, unless there is none.
pub fn function(name: &str) -> Option<Fun> {
    let mut code = 0u8;
    for known in FUNCTIONS {
        if known == name {
            return Fun::from_code(code);
        }
        code = code.wrapping_add(1);
    }
    None
}
