// How a tool writes the edges of its graph.
ghost use Rattle.std.specs.Prelude.{◌≡◌, ◌++◌, OnOk};
ghost use Rattle.se_walks.specs.WalkTexts.{EdgeWords};

use pol_symbols::Symbols;
use std::alloc::AllocError;

/// How a tool writes the edges of its graph.
pub trait EdgeTexts {
    /// The word for an edge, the symbols that name its ends, and the text behind these.
    ghost words: { Self → EdgeWords };

    /// The word for an edge.
    fn word(&self) -> &'static [u8]
        ensures { result.now ≡ (words self.now).word };

    /// The symbols that name the ends.
    fn symbols(&self) -> &Symbols<'_>
        ensures { result.now ≡ (words self.now).symbols };

    /// Adds what stands behind the ends of an edge to a buffer. Its further lines have this indent.
    fn push_behind(
        &self,
        indent: &[u8],
        from: u32,
        to: u32,
        buffer: &mut Vec<u8>,
    ) -> Result<(), AllocError>
        ensures { OnOk result (buffer.new.items ≡ buffer.old.items ++ (words self.now).behind indent.now from to) };
}
