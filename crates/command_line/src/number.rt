// Decimal numbers.
ghost use Rattle.std.specs.Prelude.{◌≡◌, ◌≤◌, ◌==◌, slice_index, IfSome};
ghost use Rattle.command_line.specs.meaning.Numbers.{number_between};

/// The value of a text that is one or more digits, where it lies within these limits.
pub fn number_in(low: u64, high: u64, text: &str) -> Option<u64>
    ensures value { result ≡ number_between low high text.now }
    ensures within { IfSome result (λ n. (low ≤ n) × (n ≤ high)) }
{
    // `parse` takes a plus, which is no part of a number here.
    if starts_with_plus(text.as_bytes()) {
        return None;
    }
    let number = text.parse::<u64>().ok()?;
    if low <= number && number <= high {
        Some(number)
    } else {
        None
    }
}

fn starts_with_plus(text: &[u8]) -> bool
    ensures { result ≡ (slice_index text.now 0 == 43) }
{
    !text.is_empty() && text[0] == b'+'
}
