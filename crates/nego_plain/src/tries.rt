//! The limit on attempts.

ghost use Rattle.std.specs.Prelude.{◌≡◌};
ghost use Rattle.nego_plain.specs.Engine.{is_spent, count_after};

/// How many attempts may be made, and how many were made.
#[derive(Clone, Copy)]
pub struct Tries {
    /// No limit where it is None.
    pub limit: Option<u64>,
    /// It stays at its last value.
    pub made: u64,
}

impl Tries {
    /// Whether the limit is reached.
    pub(crate) fn is_spent(&self) -> bool
        ensures { result ≡ is_spent self.now }
    {
        match self.limit {
            None => false,
            Some(limit) => limit <= self.made,
        }
    }

    /// Counts an attempt.
    pub(crate) fn count(&mut self)
        ensures limit { self.new.limit ≡ self.old.limit }
        ensures made { self.new.made ≡ count_after self.old.made 1 }
    {
        self.made = self.made.saturating_add(1);
    }
}
