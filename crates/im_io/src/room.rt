ghost use Rattle.std.specs.Prelude.{◌≡◌, ◌≤◌, ◌+◌, ◌++◌, ◌↔◌, IsTrue, length, vec_len};
ghost use Rattle.std.specs.Prelude.{vec_capacity};
ghost use Rattle.im_io.specs.Rooms.{NothingFits};

/// Appends bytes for which there is room.
pub(crate) fn append(bytes: &mut Vec<u8>, piece: &[u8])
    requires { vec_len bytes.old + length piece.now ≤ vec_capacity bytes.old }
    ensures items { bytes.new.items ≡ bytes.old.items ++ piece.now }
    ensures capacity { vec_capacity bytes.new ≡ vec_capacity bytes.old }
{
    for byte in piece {
        bytes.push_reserved(*byte);
    }
}

/// Whether no byte fits of a piece that has one, where this many bytes of room are left.
pub(crate) fn nothing_fits(piece: &[u8], left: usize) -> bool
    ensures { IsTrue result ↔ NothingFits piece.now left }
{
    left == 0 && !piece.is_empty()
}
