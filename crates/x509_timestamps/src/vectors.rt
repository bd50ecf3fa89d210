//! Bytes behind their length.

ghost use Rattle.std.specs.Prelude.{◌≡◌};
ghost use Rattle.x509_timestamps.specs.Reading.{Gives, vector_at, whole_at};

/// The bytes behind a length of two bytes, and what stands behind them; none where there are fewer.
#[tactic(auto, unfolding(crate::specs::Reading::vector_at))]
pub(crate) fn vector_at(bytes: &[u8]) -> Option<(&[u8], &[u8])>
    ensures { Gives (λ x. (x.0.now, x.1.now)) result (vector_at bytes.now) }
{
    match bytes {
        [high, low, rest @ ..] => {
            let len = *high as usize * 256 + *low as usize;
            if rest.len() < len {
                return None;
            }
            Some(rest.split_at(len))
        }
        _ => None,
    }
}

/// The bytes behind the length; none where there are more or fewer.
#[tactic(auto, unfolding(crate::specs::Reading::whole_at))]
pub(crate) fn whole_of(bytes: &[u8]) -> Option<&[u8]>
    ensures { Gives (λ x. x.now) result (whole_at bytes.now) }
{
    let (vector, behind) = vector_at(bytes)?;
    if !behind.is_empty() {
        return None;
    }
    Some(vector)
}
