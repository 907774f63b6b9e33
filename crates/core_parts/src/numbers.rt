//! Numbers of the core binary format.

ghost use Rattle.std.specs.Prelude.{◌≡◌, ◌<◌, ◌≤◌, ◌^◌, length, IfSome, option_map};
ghost use Rattle.core_sections.specs.Numbers.{leb_at};
ghost use Rattle.core_sections.specs.Contents.{byte_at};

/// A number below the limit, in at most as many bytes as a number of that limit may have, and what follows it.
#[tactic(auto, unfolding(core_sections::specs::Numbers::leb_at))]
pub(crate) fn read_below(limit: u128, bytes: &[u8]) -> Option<(u128, &[u8])>
    ensures value { option_map (λ x. (x.0, x.1.now)) result ≡ leb_at limit bytes.now }
    ensures below { IfSome result (λ x. x.0 < limit) }
    ensures shorter { IfSome result (λ x. length x.1.now < length bytes.now) }
{
    let (first, rest) = bytes.split_first()?;
    let first = *first as u128;
    if first < 128 {
        return if first < limit {
            Some((first, rest))
        } else {
            None
        };
    }
    if limit <= 128 {
        return None;
    }
    let (high, rest) = read_below(limit / 128, rest)?;
    Some((first - 128 + 128 * high, rest))
}

/// A number of 32 bits, in at most five bytes, and what follows it.
pub fn read_number(bytes: &[u8]) -> Option<(u32, &[u8])>
    ensures value { option_map (λ x. (x.0, x.1.now)) result ≡ leb_at (2 ^ 32) bytes.now }
    ensures shorter { IfSome result (λ x. length x.1.now < length bytes.now) }
{
    let (number, rest) = read_below(1 << 32, bytes)?;
    Some((number as u32, rest))
}

/// A byte, and what follows it.
pub(crate) fn read_byte(bytes: &[u8]) -> Option<(u8, &[u8])>
    ensures value { option_map (λ x. (x.0, x.1.now)) result ≡ byte_at bytes.now }
    ensures shorter { IfSome result (λ x. length x.1.now < length bytes.now) }
{
    let (first, rest) = bytes.split_first()?;
    Some((*first, rest))
}
