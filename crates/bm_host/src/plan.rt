//! Which calls fail by their number.

ghost use Rattle.std.specs.Prelude.{◌≡◌, ◌↔◌, ◌+◌, min, IsTrue, Contains};
ghost use Rattle.bm_host.specs.Outside.{LAST_COUNT};

/// The calls made so far, and the numbers of those that fail. The count stays at its last value.
#[derive(Drop)]
pub(crate) struct Plan {
    pub(crate) failing: Vec<u32>,
    pub(crate) calls: u64,
}

impl Plan {
    /// Counts a call, and says whether it fails.
    pub(crate) fn next_fails(&mut self) -> bool
        ensures fails { IsTrue result ↔ Contains self.old.failing.items self.old.calls }
        ensures calls { self.new.calls ≡ min (self.old.calls + 1) LAST_COUNT }
        ensures failing { self.new.failing.items ≡ self.old.failing.items }
    {
        let number = self.calls;
        self.calls = self.calls.saturating_add(1);
        self.failing
            .iter()
            .any(|&failing| u64::from(failing) == number)
    }
}
