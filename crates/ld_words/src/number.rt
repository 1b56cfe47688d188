// Numbers in words.
ghost use Rattle.std.specs.Prelude.{◌≡◌, ◌≤◌, ℕ, MatchOption, IfSome, IfNone, decimal};
ghost use Rattle.ld_words.specs.Meaning.{Spells, IsNoNumber};

use itoa::Buffer;
use ld_lsn::text::same;

/// The number that the text spells, in digits without a sign or a leading zero, within 64 bits.
fn number(text: &str) -> Option<u64>
    ensures found { IfSome result (λ n. text.now ≡ decimal n) }
    ensures none { IfNone result (IsNoNumber text.now) }
{
    let Ok(number) = text.parse::<u64>() else {
        return None;
    };
    let mut buffer = Buffer::new();
    let again = buffer.format(number).as_bytes();
    if same(again, text.as_bytes()) {
        Some(number)
    } else {
        None
    }
}

/// The number, where it is within bounds.
fn within(number: u64, least: u64, most: u64) -> Option<u64>
    ensures { MatchOption result ((n : ℕ) → Spells (decimal number) least most n → ⊥) (λ n. (n ≡ number) × Spells (decimal number) least most n) }
{
    if least <= number && number <= most {
        Some(number)
    } else {
        None
    }
}

/// The number that the text spells, within bounds.
pub fn spelt(text: &str, least: u64, most: u64) -> Option<u64>
    ensures { MatchOption result ((n : ℕ) → Spells text.now least most n → ⊥) (Spells text.now least most) }
{
    match number(text) {
        Some(number) => within(number, least, most),
        None => None,
    }
}
