// Numbers drawn from a seed, one after another.
ghost use Rattle.std.specs.Prelude.{◌≡◌, ℕ, ◌+◌, ◌<◌};
ghost use Rattle.cluster_gen.specs.Draws.{state_after, draw};

const MODULUS: u64 = 2147483648;

const MULTIPLIER: u64 = 1103515245;

const INCREMENT: u64 = 12345;

// The generator, at its state before the next draw.
#[derive(Drop)]
pub struct Draws {
    state: u32,
    ghost in_range: { state < 2147483648 },
}

impl Draws {
    pub fn new(seed: u32) -> Self
        requires { seed < 2147483648 }
        ensures { result.state ≡ seed }
    {
        Draws { state: seed }
    }

    // The next draw, below the limit.
    #[tactic(auto, unfolding(crate::specs::Draws::draw))]
    pub fn below(&mut self, limit: u32) -> u32
        requires { 0 < limit }
        ensures value { (seed place : ℕ) → self.old.state ≡ state_after place seed
            → result ≡ draw seed place limit }
        ensures next { (seed place : ℕ) → self.old.state ≡ state_after place seed
            → self.new.state ≡ state_after (place + 1) seed }
        ensures within { result < limit }
    {
        let state = (MULTIPLIER * self.state as u64 + INCREMENT) % MODULUS;
        self.state = state as u32;
        self.state / 65536 % limit
    }
}
