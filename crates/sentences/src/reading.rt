// The number and the place that bytes say if they are a sentence.
ghost use Rattle.std.specs.Prelude.{◌≡◌, ℕ, get_or};
ghost use Rattle.sentences.specs.Guess.{number_in, longer, place_in, place_from};

// The number: two digits or one, from byte 8 on.
#[tactic(auto, unfolding(crate::specs::Guess::number_in))]
pub fn number_in(bytes: &[u8]) -> u32
    ensures { result ≡ number_in bytes.now }
{
    let tens = u32::from(bytes.get(8).copied().unwrap_or(0).saturating_sub(b'0'));
    match bytes.get(9) {
        Some(b) if b.is_ascii_digit() => 10 * tens + u32::from(*b - b'0'),
        _ => tens,
    }
}

// The place with one byte more, or None if it has over 32 bits. A byte that is not a digit starts it again from 0.
fn lengthen(place: Option<u32>, b: u8) -> Option<u32>
    ensures { (v : ℕ) → place ≡ place_from v → result ≡ place_from (longer v b) }
{
    if !b.is_ascii_digit() {
        return Some(0);
    }
    place?.checked_mul(10)?.checked_add(u32::from(b - b'0'))
}

// The place: the number at the end of the bytes, or None if it has over 32 bits.
pub fn place_in(bytes: &[u8]) -> Option<u32>
    ensures { result ≡ place_from (place_in 0 bytes.now) }
{
    let mut place = Some(0);
    for b in bytes {
        place = lengthen(place, *b);
    }
    place
}
