//! Which lines of a source code comes from, by its offsets.

ghost use Rattle.std.specs.Prelude.{◌≡◌, ◌≤◌, ◌<◌, ◌+◌, ℕ, length, IfSome, slice_get};
ghost use Rattle.source_lines.specs.declared.entry.LineEntry.{LineEntry};
ghost use Rattle.source_lines.specs.SourceLines.{count_upto};

/// From an offset on, code comes from a line.
#[derive(Clone, Copy)]
pub struct LineEntry {
    pub offset: u32,
    /// The number of the line.
    pub line: u32,
    /// How many lines are around it. The next one outward is that of the last entry before it that has fewer.
    pub depth: u32,
}

/// How many entries there are up to the last one that is at an offset or before it. Where entries rise, that one is the
/// entry of what is at the offset.
pub fn count_upto(entries: &[LineEntry], at: u32) -> usize
    ensures count { result ≡ count_upto entries.now at (length entries.now) }
    ensures within { result ≤ length entries.now }
    ensures before { (k : ℕ) → k + 1 ≡ result → IfSome (slice_get entries.now k) (λ (e : LineEntry). e.offset ≤ at) }
    ensures behind { (k : ℕ) → result ≤ k → IfSome (slice_get entries.now k) (λ (e : LineEntry). at < e.offset) }
{
    let mut count = entries.len();
    while count > 0 {
        if entries[count - 1].offset <= at {
            return count;
        }
        count -= 1;
    }
    0
}
