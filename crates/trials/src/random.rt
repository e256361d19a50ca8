// Numbers that look random, the same in every run: a linear congruential generator.
ghost use Rattle.std.specs.Prelude.{◌≡◌, ◌<◌};
ghost use Rattle.trials.specs.Randoms.{after, drawn};

#[derive(Drop)]
pub(crate) struct Random {
    state: u64,
}

impl Random {
    pub(crate) fn new(seed: u32) -> Random
        ensures { result.state ≡ seed }
    {
        Random {
            state: u64::from(seed),
        }
    }

    // A number below the limit.
    pub(crate) fn below(&mut self, limit: u8) -> u8
        requires { 0 < limit }
        ensures state { self.new.state ≡ after self.old.state }
        ensures drawn { result ≡ drawn (after self.old.state) limit }
        ensures below { result < limit }
    {
        self.state = self
            .state
            .wrapping_mul(6364136223846793005)
            .wrapping_add(1442695040888963407);
        // `as`, since it is proved to fit
        ((self.state >> 33) % u64::from(limit)) as u8
    }
}
