ghost use Rattle.std.specs.Prelude.{◌≤◌};

/// The first bytes of what is read, at most `N` of them, in memory that does not grow: what comes past them is let go.
// A model would hide the fields, but a struct with a model that forgets some is not `Copy`, as those that hold this one are.
#[derive(Clone, Copy)]
pub struct Held<const N: usize> {
    bytes: [u8; N],
    width: usize,
    ghost within: { width ≤ N },
}

impl<const N: usize> Held<N> {
    ghost use Rattle.std.specs.Prelude.{◌≡◌, [], ◌∷◌, ◌++◌, take};
    ghost use Rattle.alphabet.specs.Holding.{held};

    /// Nothing held.
    pub fn new() -> Held<N>
        ensures { held result ≡ [] }
    {
        Held {
            bytes: [0; N],
            width: 0,
        }
    }

    /// Reads some more bytes.
    pub fn extend_from_slice(&mut self, more: &[u8])
        ensures { held self.new ≡ take N (held self.old ++ more.now) }
    {
        let kept = more.len().min(N - self.width);
        let end = self.width + kept;
        let bytes = &mut self.bytes[..];
        bytes[self.width..end].copy_from_slice(&more[..kept]);
        self.width = end;
    }

    /// Reads one more byte.
    // not by `extend_from_slice`: with a copy for each byte a million lines took a quarter longer
    pub fn push(&mut self, byte: u8)
        ensures { held self.new ≡ take N (held self.old ++ byte ∷ []) }
    {
        let at = self.width;
        if at < N {
            self.bytes[at] = byte;
            self.width = at + 1;
        }
    }

    /// Lets everything go.
    pub fn clear(&mut self)
        ensures { held self.new ≡ [] }
    {
        self.width = 0;
    }

    /// What is held.
    pub fn as_slice(&self) -> &[u8]
        ensures { result.now ≡ held self.now }
    {
        &self.bytes[..self.width]
    }
}
