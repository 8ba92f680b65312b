//! What is known of a run besides its world.

ghost use Rattle.std.specs.Prelude.{◌≡◌};
ghost use Rattle.waiting_texts.specs.Waits.{has_file};

/// Which links have files, by their numbers, and whether the run is over.
#[derive(Clone, Copy)]
pub struct Setting {
    pub inputs: [bool; 4],
    pub outputs: [bool; 4],
    pub is_over: bool,
}

/// Whether the link of this number has a file.
pub(crate) fn has_file(files: &[bool; 4], link: usize) -> bool
    ensures { result ≡ has_file files.now link }
{
    files.get(link).copied().unwrap_or(false)
}
