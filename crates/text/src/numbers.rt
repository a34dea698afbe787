// The numbers of a line, in their order: a byte, and up to eight fields behind it. An array with a count, since nothing is allocated.
ghost use Rattle.std.specs.Prelude.{◌≡◌, ◌+◌, ◌<◌, ◌≤◌, ◌==◌, [], ◌∷◌, ◌++◌};

// The most numbers that a line can have.
pub const MOST: usize = 9;

// The first `count` of `list`.
#[derive(Clone, Copy)]
pub struct Numbers {
    list: [u64; MOST],
    count: usize,
    pub ghost few: { count ≤ 9 },
}

impl Numbers {
    ghost use Rattle.text.specs.Listed.{listed};

    // No numbers.
    pub fn new() -> Numbers
        ensures { result.count ≡ 0 }
    {
        Numbers {
            list: [0; MOST],
            count: 0,
        }
    }

    // Are there as many as a line can have?
    pub fn is_full(&self) -> bool
        ensures { result ≡ (self.now.count == 9) }
    {
        self.count == MOST
    }

    // One number more.
    pub fn push(&mut self, n: u64)
        requires { self.old.count < 9 }
        ensures count { self.new.count ≡ self.old.count + 1 }
        ensures list { listed self.new ≡ listed self.old ++ (n ∷ []) }
    {
        self.list[self.count] = n;
        self.count += 1;
    }

    // All of them.
    pub fn as_slice(&self) -> &[u64]
        ensures { result.now ≡ listed self.now }
    {
        &self.list[..self.count]
    }
}
