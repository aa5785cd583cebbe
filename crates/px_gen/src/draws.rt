ghost use Rattle.std.specs.Prelude.{◌≡◌, ◌<◌, ◌/◌, ◌^◌};
ghost use Rattle.px_gen.specs.Draws.{first_state, next_state};

/// How many states there are.
const STATES: u64 = 1 << 31;

/// A sequence of numbers that look random: each state gives the next.
#[derive(Drop)]
pub struct Draws {
    state: u32,
    ghost below: { state < 2 ^ 31 },
}

impl Draws {
    /// The draws of a start.
    pub fn new(start: u64) -> Draws
        ensures { result.state ≡ first_state start }
    {
        Draws {
            state: (start % STATES) as u32,
        }
    }

    /// The next number.
    pub fn draw(&mut self) -> u32
        ensures state { self.new.state ≡ next_state self.old.state }
        ensures number { result ≡ next_state self.old.state / 65536 }
    {
        let next = u64::from(self.state) * 1_103_515_245 + 12_345;
        self.state = (next % STATES) as u32;
        self.state / 65536
    }
}
