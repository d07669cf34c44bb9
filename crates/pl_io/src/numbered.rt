//! Calls that are numbered from 1, of which some are to fail.

ghost use Rattle.std.specs.Prelude.{◌≡◌, ◌↔◌, IsTrue, Contains};
ghost use Rattle.pl_io.specs.Numbered.{next_number};

/// How many calls were numbered, and the numbers of the calls that are to fail.
#[derive(Drop)]
pub struct Numbered {
    pub failing: Vec<u64>,
    pub calls: u64,
}

impl Numbered {
    /// No call yet.
    pub fn new(failing: Vec<u64>) -> Numbered
        ensures failing { result.failing ≡ failing }
        ensures calls { result.calls ≡ 0 }
    {
        Numbered { failing, calls: 0 }
    }

    /// Numbers a call, and says whether it is to fail.
    pub fn next_fails(&mut self) -> bool
        ensures fails { IsTrue result ↔ Contains self.new.failing.items self.new.calls }
        ensures calls { self.new.calls ≡ next_number self.old.calls }
        ensures failing { self.new.failing ≡ self.old.failing }
    {
        self.calls = self.calls.saturating_add(1);
        self.failing.contains(&self.calls)
    }
}
