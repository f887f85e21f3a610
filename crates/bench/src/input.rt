// The buffer that the records of an input are taken from.
ghost use Rattle.std.specs.Prelude.{◌≡◌, length};
ghost use Rattle.bench.specs.Run.{left_of, shifted_of};

// Moves the octets from `at` to `have` to the front of the buffer, and gives how many there are.
pub(crate) fn shift(input: &mut [u8], at: usize, have: usize) -> usize
    ensures { (result ≡ left_of at have (length input.old)) × (input.new ≡ shifted_of at have input.old) }
{
    if input.len() < have {
        return 0;
    }
    if have < at {
        return 0;
    }
    input.copy_within(at..have, 0);
    have - at
}
