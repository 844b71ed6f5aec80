// Where one stream of bytes is written to.
ghost use Rattle.std.specs.Prelude.{◌≡◌, true};
ghost use Rattle.bp_outside.specs.Out.{OutView, OutWrites, WritesAll};

use crate::refusals::OutRefusal;
use std::alloc::Global;

/// A stream that bytes are written to, as standard output. It counts its faults. The count stands
/// still at the greatest u64.
pub trait Out {
    // What is known of it.
    ghost shows: { Self → OutView };

    /// Writes the first bytes of the piece, and tells how many: at least one of a piece that has
    /// any. A refusal may have written a prefix of the piece.
    fn write(&mut self, alloc: Global, piece: &[u8]) -> Result<usize, OutRefusal>
        ensures { OutWrites (shows self.old) piece.now result (shows self.new) };

    // An out that is sure never failed.
    ghost unfailing: { (out : Self) → (shows out).sure ≡ true → (shows out).faults ≡ 0 };
}

/// Writes all of the piece. A refusal leaves some prefix of it written.
pub fn write_all<O: Out>(alloc: Global, out: &mut O, piece: &[u8]) -> Result<(), OutRefusal>
    ensures { WritesAll (O.shows out.old) piece.now result (O.shows out.new) }
{
    let mut at = 0;
    while at < piece.len() {
        at += out.write(alloc, &piece[at..])?;
    }
    Ok(())
}
