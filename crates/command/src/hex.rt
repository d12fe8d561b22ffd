// Bytes written in hexadecimal digits.

ghost use Rattle.std.specs.Prelude.{◌≡◌, ◌<◌, length, IfOk};
ghost use Rattle.command.specs.Steps.{mapped};
ghost use Rattle.command.specs.Digits.{digit_of, pair_of, bytes_of, Answers};

use crate::mistake::Mistake;
use crate::words::{is_white, strip};
use std::alloc::Global;

/// What a hexadecimal digit stands for, in upper or lower case.
fn digit(byte: u8) -> Result<u8, Mistake>
    ensures { result ≡ digit_of byte }
{
    match byte {
        b'0'..=b'9' => Ok(byte - b'0'),
        b'A'..=b'F' => Ok(byte - b'A' + 10),
        b'a'..=b'f' => Ok(byte - b'a' + 10),
        _ => Err(Mistake::NoDigit(byte)),
    }
}

/// The byte that the two digits at the front of a text stand for, and what is behind them.
fn pair(text: &[u8]) -> Result<(u8, &[u8]), Mistake>
    ensures is { mapped (λ p. (p.0, p.1.now)) result ≡ pair_of text.now }
    ensures shorter { IfOk result (λ p. length p.1.now < length text.now) }
{
    let [first, rest @ ..] = text else {
        return Err(Mistake::LoneDigit);
    };
    let high = digit(*first)?;
    match rest {
        [second, rest @ ..] if !is_white(*second) => Ok((high * 16 + digit(*second)?, rest)),
        _ => Err(Mistake::LoneDigit),
    }
}

/// The bytes that pairs of digits stand for, between which there may be white space.
pub fn decode(heap: Global, text: &[u8]) -> Result<Vec<u8>, Mistake>
    ensures { Answers result (bytes_of text.now) }
{
    let mut bytes = Vec::new(heap);
    let mut rest = strip(text);
    while !rest.is_empty() {
        let (byte, behind) = pair(rest)?;
        bytes.push(byte)?;
        rest = strip(behind);
    }
    Ok(bytes)
}
