//! Numbers that follow from a seed.

ghost use Rattle.std.specs.Prelude.{◌≡◌, ◌/◌, ◌^◌};
ghost use Rattle.json_samples.specs.Sample.{next_state};

// Draws, each from the state that the one before it left.
#[derive(Drop)]
pub(crate) struct Draws {
    state: u64,
}

impl Draws {
    // The draws that follow from the seed.
    pub(crate) fn new(seed: u64) -> Draws
        ensures { result.state ≡ seed }
    {
        Draws { state: seed }
    }

    // The next draw: the high half of the next state.
    pub(crate) fn draw(&mut self) -> u64
        ensures steps { self.new.state ≡ next_state self.old.state }
        ensures drawn { result ≡ next_state self.old.state / 2 ^ 32 }
    {
        self.state = self
            .state
            .wrapping_mul(6364136223846793005)
            .wrapping_add(1442695040888963407);
        self.state >> 32
    }
}
