// Numbers laid over others, and compared with them.

#![tactic(auto)]

ghost use Rattle.std.specs.Prelude.{◌≡◌, ◌+◌, ◌≤◌, length};
ghost use Rattle.plain.specs.Tells.{Tells};
ghost use Rattle.laying.specs.Laid.{replaced};

// Lays new numbers over those from place `at` on.
pub fn lay(numbers: &mut [u64], at: usize, new: &[u64])
    requires { at + length new.now ≤ length numbers.old }
    ensures { numbers.new ≡ replaced at new.now numbers.old }
{
    for i in 0..new.len() {
        let place = at + i;
        numbers[place] = new[i];
    }
}

// Whether two runs of numbers, as long as each other, are the same.
pub fn same_numbers(one: &[u64], other: &[u64]) -> bool
    requires { length one.now ≡ length other.now }
    ensures { Tells result (one.now ≡ other.now) }
{
    one == other
}
