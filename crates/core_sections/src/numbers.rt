//! Numbers and names of the core binary format.

ghost use Rattle.std.specs.Prelude.{◌≡◌, ◌<◌, ◌≤◌, ◌^◌, length, IfSome, option_map};
ghost use Rattle.core_sections.specs.Numbers.{leb_at, bytes_at, name_at};

/// A number below the limit, in at most as many bytes as a number of that limit may have, and what
/// follows it.
#[tactic(auto, unfolding(crate::specs::Numbers::leb_at))]
pub(crate) fn read_below(limit: u128, bytes: &[u8]) -> Option<(u128, &[u8])>
    ensures value { option_map (λ x. (x.0, x.1.now)) result ≡ leb_at limit bytes.now }
    ensures below { IfSome result (λ x. x.0 < limit) }
    ensures shorter { IfSome result (λ x. length x.1.now < length bytes.now) }
{
    let (first, rest) = bytes.split_first()?;
    let first = *first as u128;
    if first < 128 {
        return if first < limit {
            Some((first, rest))
        } else {
            None
        };
    }
    if limit <= 128 {
        return None;
    }
    let (high, rest) = read_below(limit / 128, rest)?;
    Some((first - 128 + 128 * high, rest))
}

/// A number of 32 bits, in at most five bytes.
pub(crate) fn read_u32(bytes: &[u8]) -> Option<(u32, &[u8])>
    ensures value { option_map (λ x. (x.0, x.1.now)) result ≡ leb_at (2 ^ 32) bytes.now }
    ensures shorter { IfSome result (λ x. length x.1.now < length bytes.now) }
{
    let (number, rest) = read_below(1 << 32, bytes)?;
    Some((number as u32, rest))
}

/// A number of 64 bits, in at most ten bytes.
pub(crate) fn read_u64(bytes: &[u8]) -> Option<(u64, &[u8])>
    ensures value { option_map (λ x. (x.0, x.1.now)) result ≡ leb_at (2 ^ 64) bytes.now }
    ensures shorter { IfSome result (λ x. length x.1.now < length bytes.now) }
{
    let (number, rest) = read_below(1 << 64, bytes)?;
    Some((number as u64, rest))
}

/// As many bytes as a number before them says, and what follows them.
#[tactic(auto, unfolding(crate::specs::Numbers::bytes_at))]
pub fn read_bytes(bytes: &[u8]) -> Option<(&[u8], &[u8])>
    ensures value { option_map (λ x. (x.0.now, x.1.now)) result ≡ bytes_at bytes.now }
    ensures shorter { IfSome result (λ x. length x.1.now < length bytes.now) }
{
    let (len, rest) = read_u32(bytes)?;
    let len = len as usize;
    if rest.len() < len {
        return None;
    }
    Some(rest.split_at(len))
}

/// A text.
#[tactic(auto, unfolding(crate::specs::Numbers::name_at), using(crate::proofs::Texts::is_text, crate::proofs::Texts::no_text))]
pub(crate) fn read_name(bytes: &[u8]) -> Option<(&str, &[u8])>
    ensures value { option_map (λ x. (x.0.now, x.1.now)) result ≡ name_at bytes.now }
    ensures shorter { IfSome result (λ x. length x.1.now < length bytes.now) }
{
    let (name, rest) = read_bytes(bytes)?;
    match str::from_utf8(name) {
        Ok(name) => Some((name, rest)),
        Err(_) => None,
    }
}
