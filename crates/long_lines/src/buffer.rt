//! The buffer for one long line.
ghost use Rattle.std.specs.Prelude.{◌≡◌, ◌+◌, ◌≤◌, ◌++◌, length, IsTrue};
ghost use Rattle.std.specs.Vec.{vec_capacity, vec_len};

use std::alloc::{AllocError, Global};

/// The first 65536 bytes of a line, and whether the line has more.
#[derive(Drop)]
pub struct LongLine {
    prefix: Vec<u8>,
    over: bool,
    ghost room: { 65536 ≤ vec_capacity prefix },
    ghost within: { vec_len prefix ≤ 65536 },
    ghost full: { IsTrue over → vec_len prefix ≡ 65536 },
}

/// Appends bytes that fit.
fn push_all(prefix: &mut Vec<u8>, bytes: &[u8])
    requires { vec_len prefix.old + length bytes.now ≤ vec_capacity prefix.old }
    ensures items { prefix.new.items ≡ prefix.old.items ++ bytes.now }
    ensures capacity { vec_capacity prefix.old ≤ vec_capacity prefix.new }
{
    let _fits = prefix.extend_from_slice(bytes);
}

impl LongLine {
    ghost use Rattle.std.specs.Prelude.{ℕ, List, [], ◌==◌, nat_lt, take, IfOk};
    ghost use Rattle.long_lines.specs.Buffer.{Holds};

    /// Creates an empty line.
    ///
    /// # Errors
    ///
    /// - [`AllocError`] if there is no memory for 65536 bytes.
    pub fn try_new(alloc: Global) -> Result<LongLine, AllocError>
        ensures { IfOk result (λ line. Holds line []) }
    {
        let prefix = Vec::with_capacity(alloc, 65536)?;
        Ok(LongLine {
            prefix,
            over: false,
        })
    }

    /// Makes the line empty.
    pub fn clear(&mut self)
        ensures { Holds self.new [] }
    {
        self.prefix.clear();
        self.over = false;
    }

    /// Appends `bytes` to the line. Bytes after the first 65536 of the line are only noted.
    pub fn extend(&mut self, bytes: &[u8])
        ensures { (line : List ℕ) → Holds self.old line → Holds self.new (line ++ bytes.now) }
    {
        let count = bytes.len().min(65536 - self.prefix.len());
        push_all(&mut self.prefix, &bytes[..count]);
        if count < bytes.len() {
            self.over = true;
        }
    }

    /// Returns the first 65536 bytes of the line.
    pub fn prefix(&self) -> &[u8]
        ensures { (line : List ℕ) → Holds self.now line → result.now ≡ take 65536 line }
    {
        &self.prefix
    }

    /// Returns whether the line has more than 65536 bytes.
    pub fn is_over(&self) -> bool
        ensures { (line : List ℕ) → Holds self.now line → result ≡ nat_lt 65536 (length line) }
    {
        self.over
    }
}
