ghost use Rattle.std.specs.Prelude.{◌≡◌, ◌≤◌, IfSome};
ghost use Rattle.std.specs.Option.{option_map};
ghost use Rattle.fields.specs.Law.{ReadsDigits};
ghost use Rattle.fields.specs.Numbers.{number_on, number_at, whole_number};

use crate::natural::Natural;

// The number up to `max` that the digits at the front write, and what follows them.
#[inline(always)]
fn digits(text: &[u8], max: u64) -> Option<(u64, &[u8])>
    ensures within { IfSome result (λ x. x.0 ≤ max) }
    ensures value { option_map (λ x. (x.0, x.1.now)) result ≡ number_on max 0 text.now }
{
    let mut value = 0u64;
    let mut rest = text;
    while let [digit @ b'0'..=b'9', after @ ..] = rest {
        value = value
            .checked_mul(10)?
            .checked_add(u64::from(*digit - b'0'))?;
        if value > max {
            return None;
        }
        rest = after;
    }
    Some((value, rest))
}

// `number` at 64 bits.
#[inline(always)]
fn leading(text: &[u8], max: u64) -> Option<(u64, &[u8])>
    ensures within { IfSome result (λ x. x.0 ≤ max) }
    ensures value { option_map (λ x. (x.0, x.1.now)) result ≡ number_at max text.now }
{
    match text {
        [b'0', b'0'..=b'9', ..] => None,
        [b'0', rest @ ..] => Some((0, rest)),
        [b'1'..=b'9', ..] => digits(text, max),
        _ => None,
    }
}

// The number at the front, up to `max` and without a leading zero, and what follows it.
#[inline]
pub fn number<N: Natural>(text: &[u8], max: N) -> Option<(N, &[u8])>
    ensures within { IfSome result (λ x. N.value x.0 ≤ N.value max) }
    ensures value { option_map (λ x. (N.value x.0, x.1.now)) result ≡ number_at (N.value max) text.now }
    ensures law { ReadsDigits }
{
    let (n, rest) = leading(text, max.widen())?;
    Some((N::narrow(n)?, rest))
}

// The number up to `max` that is the whole text.
#[inline]
pub fn whole_number<N: Natural>(text: &[u8], max: N) -> Option<N>
    ensures within { IfSome result (λ n. N.value n ≤ N.value max) }
    ensures value { option_map N.value result ≡ whole_number (N.value max) text.now }
{
    let (n, rest) = number(text, max)?;
    rest.is_empty().then_some(n)
}
