// A text that is written piece by piece to standard output.
ghost use Rattle.or_command.specs.Leaves.{Silent};
ghost use Rattle.or_command.specs.Pieces.{WritesOut};

use or_host::Host;

/// Why a text that is written piece by piece ends early.
#[derive(Clone, Copy, Debug, PartialEq, Eq)]
pub enum PieceStop {
    /// Standard output was not written.
    Unwritten,
    /// Memory ran out.
    NoMemory,
}

/// Writes a piece of a text to standard output. Errors: Unwritten, and a prefix of the piece is then written; never NoMemory.
pub fn write_piece<H: Host>(host: &mut H, piece: &[u8]) -> Result<(), PieceStop>
    ensures writes { WritesOut result piece.now (H.state host.old) (H.state host.new) }
    ensures silent { Silent (H.state host.old) (H.state host.new) }
{
    match host.out(piece) {
        Ok(()) => Ok(()),
        Err(_) => Err(PieceStop::Unwritten),
    }
}
