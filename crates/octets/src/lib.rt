// Numbers as octets, the most significant first.
#![tactic(auto)]

ghost use Rattle.std.specs.Prelude.{◌≡◌, ◌++◌, ℕ, cond, leb, length, take, drop};
ghost use Rattle.octets.specs.Octets.{value, octets};

// An unsigned number of so many octets.
pub trait Number: Copy + Drop {
    ghost WIDTH: { ℕ };

    const WIDTH: usize;

    // The number itself, for clauses.
    ghost number: { Self → ℕ };

    // The number at the start of a slice; 0 where the slice is shorter.
    fn read(s: &[u8]) -> Self
        ensures { number result ≡ cond (leb WIDTH (length s.now)) (value (take WIDTH s.now)) 0 };

    // The number's octets at the start of a target, the rest unchanged; a target that is shorter keeps its content.
    fn put(self, target: &mut [u8])
        ensures { target.new ≡ cond (leb WIDTH (length target.old)) (octets WIDTH (number self) ++ drop WIDTH target.old) target.old };
}

impl Number for u8 {
    ghost WIDTH = { 1 };

    const WIDTH: usize = 1;

    ghost number = { λ x. x };

    fn read(s: &[u8]) -> u8 {
        if s.len() == 0 { 0 } else { s[0] }
    }

    fn put(self, target: &mut [u8]) {
        if 0 < target.len() {
            target[0] = self;
        }
    }
}

impl Number for u16 {
    ghost WIDTH = { 2 };

    const WIDTH: usize = 2;

    ghost number = { λ x. x };

    fn read(s: &[u8]) -> u16 {
        if s.len() < 2 {
            0
        } else {
            u16::from_be_bytes([s[0], s[1]])
        }
    }

    fn put(self, target: &mut [u8]) {
        if 2 <= target.len() {
            target[..2].copy_from_slice(&self.to_be_bytes());
        }
    }
}

impl Number for u32 {
    ghost WIDTH = { 4 };

    const WIDTH: usize = 4;

    ghost number = { λ x. x };

    fn read(s: &[u8]) -> u32 {
        if s.len() < 4 {
            0
        } else {
            u32::from_be_bytes([s[0], s[1], s[2], s[3]])
        }
    }

    fn put(self, target: &mut [u8]) {
        if 4 <= target.len() {
            target[..4].copy_from_slice(&self.to_be_bytes());
        }
    }
}

impl Number for u64 {
    ghost WIDTH = { 8 };

    const WIDTH: usize = 8;

    ghost number = { λ x. x };

    fn read(s: &[u8]) -> u64 {
        if s.len() < 8 {
            0
        } else {
            u64::from_be_bytes([s[0], s[1], s[2], s[3], s[4], s[5], s[6], s[7]])
        }
    }

    fn put(self, target: &mut [u8]) {
        if 8 <= target.len() {
            target[..8].copy_from_slice(&self.to_be_bytes());
        }
    }
}
