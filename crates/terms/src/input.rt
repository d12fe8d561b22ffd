// The front of the bytes that are still to be read.

ghost use Rattle.std.specs.Prelude.{◌≡◌, IfNone};
ghost use Rattle.terms.specs.Inputs.{one, four_of, taken};

/// Takes one byte, where there is one.
pub fn byte(input: &mut &[u8]) -> Option<u8>
    ensures is { taken result input.new.now ≡ one input.old.now }
    ensures none { IfNone result (input.new.now ≡ input.old.now) }
{
    let (first, rest) = input.split_first()?;
    *input = rest;
    Some(*first)
}

/// Takes a number of four bytes, the highest first, where there are four.
pub fn word(input: &mut &[u8]) -> Option<u32>
    ensures is { taken result input.new.now ≡ four_of input.old.now }
    ensures none { IfNone result (input.new.now ≡ input.old.now) }
{
    let (bytes, rest) = input.split_first_chunk()?;
    *input = rest;
    Some(u32::from_be_bytes(*bytes))
}
