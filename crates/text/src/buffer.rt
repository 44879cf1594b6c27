//! Numbers written as they are into a lent buffer.

ghost use Rattle.std.specs.Prelude.{◌≤◌, length};
ghost use Rattle.text.specs.Buffer.{Wrote};

/// TEXT-5: writes the numbers of a slice to the start of a buffer that has room for them; answers how many
/// they are.
#[tactic(auto, unfolding(crate::specs::Buffer::written))]
pub fn put_numbers(numbers: &[u64], out: &mut [u64]) -> usize
    requires { length numbers.now ≤ length out.old }
    ensures { Wrote numbers.now out.old out.new result }
{
    let count = numbers.len();
    out[..count].copy_from_slice(numbers);
    count
}
