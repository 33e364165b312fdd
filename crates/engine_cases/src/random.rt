// A fixed small generator of numbers that look random.

ghost use Rattle.std.specs.Prelude.{◌≡◌, ◌+◌, ◌*◌, ◌/◌, ◌%◌, ◌^◌, cond, ◌==◌};

#[derive(Drop)]
pub struct Random {
    state: u64,
}

impl Random {
    pub fn new(seed: u64) -> Random
        ensures { result.state ≡ seed }
    {
        Random { state: seed }
    }

    // A number below n; 0 where n is 0.
    pub fn below(&mut self, n: u64) -> u64
        ensures state { self.new.state ≡ (self.old.state * 6_364_136_223_846_793_005 + 1_442_695_040_888_963_407) % 2 ^ 64 }
        ensures value { result ≡ cond (n == 0) 0 (self.new.state / 2 ^ 33 % n) }
    {
        self.state = self
            .state
            .wrapping_mul(6_364_136_223_846_793_005)
            .wrapping_add(1_442_695_040_888_963_407);
        if n == 0 {
            return 0;
        }
        (self.state >> 33) % n
    }

    // 1 or 2.
    pub fn one_or_two(&mut self) -> u32
        ensures state { self.new.state ≡ (self.old.state * 6_364_136_223_846_793_005 + 1_442_695_040_888_963_407) % 2 ^ 64 }
        ensures value { result ≡ self.new.state / 2 ^ 33 % 2 + 1 }
    {
        if self.below(2) == 0 { 1 } else { 2 }
    }
}
