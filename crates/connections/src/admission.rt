//! How many clients are let in.
ghost use Rattle.std.specs.Prelude.{◌≡◌, ◌<◌, ◌-◌, ◌==◌, ◌&&◌, nat_lt};

use std::marker::Model;

/// How many clients are still let in. Each connection that is accepted counts, whatever its client says.
#[derive(Drop)]
pub struct Admission {
    left: u32,
}

impl Model for Admission {
    ghost use Rattle.std.specs.Prelude.{ℕ};

    ghost Value = { ℕ };

    ghost view = { λ a. a.left };
}

impl Admission {
    /// An admission that lets in `count` connections.
    pub fn new(count: u32) -> Admission
        ensures { result ≡ count }
    {
        Admission { left: count }
    }

    /// Whether one more is let in.
    pub fn is_open(&self) -> bool
        ensures { result ≡ nat_lt 0 self.now }
    {
        self.left > 0
    }

    /// One is let in.
    pub fn let_in(&mut self)
        requires { 0 < self.old }
        ensures { self.new ≡ self.old - 1 }
    {
        self.left -= 1;
    }

    /// Whether all connections came that are let in and none of them is there any more, if `present` are there now.
    pub fn is_over(&self, present: usize) -> bool
        ensures { result ≡ (self.now == 0 && present == 0) }
    {
        self.left == 0 && present == 0
    }
}
