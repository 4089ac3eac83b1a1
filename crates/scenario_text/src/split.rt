ghost use Rattle.scenario_text.specs.Coded.{SplitsAt};

use memchr::memchr;

/// Returns what stands before the first separator and what stands after it, if there is one.
pub(crate) fn split_once(bytes: &[u8], separator: u8) -> Option<(&[u8], &[u8])>
    ensures { SplitsAt separator bytes.now result }
{
    let at = memchr(separator, bytes)?;
    Some((&bytes[..at], &bytes[at + 1..]))
}
