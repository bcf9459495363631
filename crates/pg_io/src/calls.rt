ghost use Rattle.std.specs.Prelude.{◌≡◌};
ghost use Rattle.pg_io.specs.Calls.{next_count, is_to_fail};

// The calls of an object in memory: how many were made, and the numbers of those that are to fail.
#[derive(Drop)]
pub(crate) struct Calls {
    pub(crate) made: u64,
    pub(crate) fails: Vec<u64>,
}

impl Calls {
    pub(crate) fn new(fails: Vec<u64>) -> Calls
        ensures none { result.made ≡ 0 }
        ensures fails { result.fails ≡ fails }
    {
        Calls { made: 0, fails }
    }

    pub(crate) fn next_fails(&self) -> bool
        ensures { result ≡ is_to_fail self.now.made self.now.fails.items }
    {
        // The number after 2^64 - 1 is in no list.
        let number = self.made as u128 + 1;
        self.fails.iter().any(|fail| *fail as u128 == number)
    }

    pub(crate) fn count(&mut self)
        ensures { self.new ≡ record self.old { made = next_count self.old.made } }
    {
        self.made = self.made.saturating_add(1);
    }
}
