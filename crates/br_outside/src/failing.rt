//! Calls that fail by a list of their numbers.
ghost use Rattle.std.specs.Prelude.{◌≡◌, ◌↔◌, ◌<◌, ◌^◌, IsTrue};

/// The numbers of the calls that fail, how many calls were made, and how many faults there were. Both counts stand at
/// `2^64 - 1`.
#[derive(Drop)]
pub struct Failing {
    numbers: Vec<u32>,
    calls: u64,
    faults: u64,
}

impl Failing {
    ghost use Rattle.br_outside.specs.Failing.{NextFails, after_call, after_fault};

    /// No call was made, and none failed.
    pub fn new(numbers: Vec<u32>) -> Failing
        ensures { result ≡ record { numbers = numbers; calls = 0; faults = 0 } }
    {
        Failing {
            numbers,
            calls: 0,
            faults: 0,
        }
    }

    /// Counts a call, and says whether it is to fail: whether its number, counted from 1, is listed and is at most
    /// 4294967295. If so, a fault is counted too.
    pub fn next_fails(&mut self) -> bool
        ensures listed { IsTrue result ↔ NextFails self.old }
        ensures counted { self.new ≡ after_call self.old result }
        ensures bounded { self.old.faults < 2 ^ 64 }
    {
        self.calls = self.calls.saturating_add(1);
        let listed = match u32::try_from(self.calls) {
            Ok(number) => self.numbers.contains(&number),
            Err(_) => false,
        };
        self.faults = self.faults.saturating_add(u64::from(listed));
        listed
    }

    /// Counts a fault of another cause.
    pub fn count_fault(&mut self)
        ensures counted { self.new ≡ after_fault self.old }
        ensures bounded { self.old.faults < 2 ^ 64 }
    {
        self.faults = self.faults.saturating_add(1);
    }
}
