//! Laws of the rules of starts and ends.

ghost use Rattle.start_laws.specs.Ending.{EndFitsStep};
ghost use Rattle.start_laws.specs.Starting.{StartFitsStep};

/// In a state that holds of a process: if the rule of `startp` is not broken, the step is no fault, and it starts a
/// branch whose share is left. Among the starts of a PAR, all that a later start wants holds, but for what the world
/// alone knows: that the open join lies where the activation's layout says, and that what the process may read lies in
/// memory. In the middle of nothing, the process can open the PAR if no end that it holds lies in a word of its own
/// besides; the words of the PAR are prepared; and what the label after the PAR says of the words that no branch writes
/// holds. In both cases the state in which the starter goes on says what holds then, and after the start the state of
/// the label at the branch's first byte holds of the branch. What is owed pays the instruction and these labels.
pub fn starts_fit_steps()
    ensures { StartFitsStep }
{}

/// In a state that holds of a process: if the rule of `endp` is not broken, the step is no fault, and the process ends
/// at the block of its PAR. It has started all branches of the PAR, or is one itself. If it is one, what the label
/// after the PAR says by itself of a word that the branch may write holds.
pub fn ends_fit_steps()
    ensures { EndFitsStep }
{}
