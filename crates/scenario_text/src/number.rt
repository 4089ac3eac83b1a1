//! Numbers: 1 to 20 decimal digits, of a value below 2^64.

ghost use Rattle.std.specs.Prelude.{◌≡◌};
ghost use Rattle.scenario_text.specs.Word.{number_of};

/// The most digits of a number. The greatest value has 20, so a longer number has zeros in front or
/// is too great.
const MAX_DIGITS: usize = 20;

/// Returns the number that a word is, if it is one.
pub(crate) fn number(word: &[u8]) -> Option<u64>
    ensures { result ≡ number_of word.now }
{
    if word.is_empty() || word.len() > MAX_DIGITS {
        return None;
    }
    let mut value: u64 = 0;
    for byte in word {
        if !byte.is_ascii_digit() {
            return None;
        }
        value = value.checked_mul(10)?.checked_add(u64::from(*byte - b'0'))?;
    }
    Some(value)
}
