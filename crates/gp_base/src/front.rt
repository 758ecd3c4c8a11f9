// What stands at the front of bytes.

ghost use Rattle.std.specs.Prelude.{◌≡◌, ◌≤◌, true, false, length, take, drop, option_map};
ghost use Rattle.std.specs.Str.{all_ascii_digits};
ghost use Rattle.gp_base.specs.Fronts.{IsAfter, begins_with_digit};

/// The bytes after a word, where they begin with it.
pub fn after<'a>(word: &[u8], bytes: &'a [u8]) -> Option<&'a [u8]>
    ensures { IsAfter word.now bytes.entry.now (option_map (λ rest. rest.now) result) }
{
    bytes.strip_prefix(word)
}

/// How many digits the bytes begin with.
pub fn count_digits(bytes: &[u8]) -> usize
    ensures digits { all_ascii_digits (take result bytes.now) ≡ true }
    ensures rest { begins_with_digit (drop result bytes.now) ≡ false }
    ensures within { result ≤ length bytes.now }
{
    let mut count = 0;
    while count < bytes.len() && bytes[count].is_ascii_digit() {
        count += 1;
    }
    count
}
