// What gives bytes, and what takes them.
ghost use Rattle.std.specs.Prelude.{◌≡◌, ℕ, ◌-◌, ◌<◌, ◌≤◌, Option, List, length, take, IfOk, IsOk, IsOkAnd, OnErr, OnOk};
ghost use Rattle.std.specs.Io.KnownBytes.{IsAtEnd};
ghost use Rattle.ept_io.specs.Bytes.{Gave, Took};
ghost use Rattle.ept_io.specs.Faults.{Rose};

use crate::faults::Failed;

/// What gives bytes in order. Contracts see the bytes that it has left, where it tells them (a
/// source that tells nothing goes on telling nothing), a count of its faults that never falls,
/// whether it is steady (then no later read of it fails), and what one read does to it, by which a
/// call says which reads it makes.
pub trait Source {
    // The bytes left, where the source tells them.
    ghost left: { Self → Option (List ℕ) };

    // How many faults there were.
    ghost faults: { Self → ℕ };

    // No later read fails.
    ghost is_steady: { Self → Type 0 };

    // One read takes the source from one state to another, and gives these bytes.
    ghost gives: { Self → List ℕ → Self → Type 0 };

    // One read takes the source from one state to another, and fails.
    ghost fails: { Self → Self → Type 0 };

    /// Reads the next bytes into the front of `buf`, which isn't empty, and says how many; 0 only
    /// at the end. It fails only where the count of faults rose (`Rose`, in specs/Faults.antt),
    /// and then no byte was taken from the source; the count is as it was where it doesn't fail.
    fn read(&mut self, buf: &mut [u8]) -> Result<usize, Failed>
        requires { 0 < length buf.old }
        ensures count { IfOk result (λ n. n ≤ length buf.new) }
        ensures bytes { IfOk result (λ n. Gave (left self.old) (take n buf.new) (left self.new)) }
        ensures end { IfOk result (λ n. n ≡ 0 → IsAtEnd (left self.new)) }
        ensures none_taken { OnErr result (left self.new ≡ left self.old) }
        ensures never_falls { faults self.old ≤ faults self.new }
        ensures cause { OnErr result (Rose (faults self.old) (faults self.new)) }
        ensures no_fault { OnOk result (faults self.new ≡ faults self.old) }

        // What one read does.
        ensures gave { IfOk result (λ n. gives self.old (take n buf.new) self.new) }
        ensures failed { OnErr result (fails self.old self.new) }

        // A source that is steady stays so, and no fault is counted.
        ensures steady { is_steady self.old →
            IsOk result × is_steady self.new × (faults self.new ≡ faults self.old) };
}

/// What takes bytes in order. Contracts see the bytes that were written, where it tells them (a
/// sink that tells nothing goes on telling nothing), a count of its faults that never falls, for
/// how many bytes it has room without a fault, and what one write does to it, by which a call says
/// which writes it makes.
pub trait Sink {
    // The bytes written so far, where the sink tells them.
    ghost written: { Self → Option (List ℕ) };

    // How many faults there were.
    ghost faults: { Self → ℕ };

    // No write fails until more than this many bytes are written.
    ghost has_room: { Self → ℕ → Type 0 };

    // One write takes the sink from one state to another, and takes these bytes.
    ghost takes: { Self → List ℕ → Self → Type 0 };

    // One write takes the sink from one state to another, and fails.
    ghost fails: { Self → Self → Type 0 };

    /// Appends bytes from the front of `buf`, which isn't empty, and says how many, at least 1. It
    /// fails only where the count of faults rose (`Rose`, in specs/Faults.antt), and then nothing
    /// was appended; the count is as it was where it doesn't fail.
    fn write(&mut self, buf: &[u8]) -> Result<usize, Failed>
        requires { 0 < length buf.now }
        ensures some { IfOk result (λ n. 1 ≤ n) }
        ensures count { IfOk result (λ n. n ≤ length buf.now) }
        ensures bytes { IfOk result (λ n.
            Took (written self.old) (take n buf.now) (written self.new)) }
        ensures none_appended { OnErr result (written self.new ≡ written self.old) }
        ensures never_falls { faults self.old ≤ faults self.new }
        ensures cause { OnErr result (Rose (faults self.old) (faults self.new)) }
        ensures no_fault { OnOk result (faults self.new ≡ faults self.old) }

        // What one write does.
        ensures took { IfOk result (λ n. takes self.old (take n buf.now) self.new) }
        ensures failed { OnErr result (fails self.old self.new) }

        // Bytes that there is room for are taken with no fault, and use up their room.
        ensures room { (room : ℕ) → has_room self.old room → length buf.now ≤ room →
            IsOkAnd result (λ n. has_room self.new (room - n))
            × (faults self.new ≡ faults self.old) };
}
