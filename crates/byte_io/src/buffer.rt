//! The buffer for one line.
ghost use Rattle.std.specs.Prelude.{◌≡◌, ◌+◌, ◌≤◌, ◌++◌, length, IsTrue};
ghost use Rattle.arrayvec.specs.ArrayVec.{array_vec_len};

use arrayvec::ArrayVec;

/// The first 512 bytes of a line, and whether the line has more.
#[derive(Drop)]
pub struct LineBuffer {
    /// The line, or its first 512 bytes.
    pub prefix: ArrayVec<u8, 512>,
    /// Whether the line has more than 512 bytes.
    pub over: bool,
    ghost full: { IsTrue over → array_vec_len prefix ≡ 512 },
}

/// Appends bytes that fit.
fn push_all(prefix: &mut ArrayVec<u8, 512>, bytes: &[u8])
    requires { array_vec_len prefix.old + length bytes.now ≤ 512 }
    ensures { prefix.new.items ≡ prefix.old.items ++ bytes.now }
{
    let _fits = prefix.try_extend_from_slice(bytes);
}

impl LineBuffer {
    ghost use Rattle.std.specs.Prelude.{ℕ, List, [], ◌==◌};
    ghost use Rattle.byte_io.specs.Buffer.{Holds};

    /// Creates an empty line.
    pub fn new() -> Self
        ensures { Holds result [] }
    {
        LineBuffer {
            prefix: ArrayVec::new(),
            over: false,
        }
    }

    /// Makes the line empty.
    pub fn clear(&mut self)
        ensures { Holds self.new [] }
    {
        self.prefix.clear();
        self.over = false;
    }

    /// Appends `bytes` to the line. Bytes after the first 512 of the line are only noted in `over`.
    pub fn extend(&mut self, bytes: &[u8])
        ensures { (line : List ℕ) → Holds self.old line → Holds self.new (line ++ bytes.now) }
    {
        if bytes.is_empty() {
            return;
        }
        let count = bytes.len().min(self.prefix.remaining_capacity());
        push_all(&mut self.prefix, &bytes[..count]);
        if count < bytes.len() {
            self.over = true;
        }
    }

    /// Returns whether the line is empty.
    pub fn is_empty(&self) -> bool
        ensures { (line : List ℕ) → Holds self.now line → result ≡ (length line == 0) }
    {
        self.prefix.is_empty()
    }
}
