ghost use Rattle.std.specs.Prelude.{◌≡◌, ◌≤◌, ◌<◌};
ghost use Rattle.scenario_made.specs.Made.{next, drawn};

/// The state of the generator.
#[derive(Drop)]
pub struct Draws {
    pub state: u64,
}

fn next(state: u64) -> u64
    ensures { result ≡ next state }
{
    state
        .wrapping_mul(6_364_136_223_846_793_005)
        .wrapping_add(1_442_695_040_888_963_407)
}

impl Draws {
    /// A draw below `k`.
    pub fn draw(&mut self, k: u64) -> u64
        requires { 1 ≤ k }
        ensures state { self.new.state ≡ next self.old.state }
        ensures value { result ≡ drawn (next self.old.state) k }
        ensures below { result < k }
    {
        self.state = next(self.state);
        (self.state >> 33) % k
    }
}
