// What a field is that is no whole number, and what to do about it.

const CENTS: &[u8] = b"amounts in cents";

const GROUPED: &[u8] =
    b"a mark between thousands has to go: 1000, and not 1,000 or 1.000 or 1 000 or 1'000";

const DATE: &[u8] =
    b"a date is written as one number, as 20240131, or as fields of their own for year, month and day";

const CURRENCY: &[u8] = b"a currency sign has to go: amounts in cents";

const BLANK: &[u8] = b"a field is not left empty: write 0, or a number that stands for none";

// Whether all bytes are digits, and there is one.
fn is_digits(bytes: &[u8]) -> bool {
    for byte in bytes {
        if !byte.is_ascii_digit() {
            return false;
        }
    }
    !bytes.is_empty()
}

/// Whether a field has a digit.
pub fn has_digit(bytes: &[u8]) -> bool {
    for byte in bytes {
        if byte.is_ascii_digit() {
            return true;
        }
    }
    false
}

/// Whether a field has a letter.
pub fn has_letter(field: &[u8]) -> bool {
    for byte in field {
        if byte.is_ascii_alphabetic() {
            return true;
        }
    }
    false
}

/// Whether a byte stands among these.
pub fn has_byte(bytes: &[u8], wanted: u8) -> bool {
    for byte in bytes {
        if *byte == wanted {
            return true;
        }
    }
    false
}

// The bytes after a minus, if there is one.
fn unsigned(field: &[u8]) -> &[u8] {
    match field {
        [b'-', rest @ ..] => rest,
        _ => field,
    }
}

/// Whether a field is a whole number, also where it is one that leaves 64 bits: digits, after a minus or not.
pub fn is_whole(field: &[u8]) -> bool {
    is_digits(unsigned(field))
}

fn is_blank(byte: u8) -> bool {
    byte == b' ' || byte == b'\t'
}

/// Whether a field has no byte but blanks.
pub fn is_empty(field: &[u8]) -> bool {
    for byte in field {
        if !is_blank(*byte) {
            return false;
        }
    }
    true
}

// A field without the blanks around it.
fn trimmed(field: &[u8]) -> &[u8] {
    let mut front: usize = 0;
    let mut end: usize = 0;
    for (at, byte) in field.iter().enumerate() {
        if !is_blank(*byte) {
            if end == 0 {
                front = at;
            }
            end = at.saturating_add(1);
        }
    }
    match field.get(front..end) {
        Some(bytes) => bytes,
        None => &[],
    }
}

// How many runs of digits a mark separates; none where other bytes stand there, or two marks in a row.
fn parts(field: &[u8], mark: u8) -> usize {
    let mut count: usize = 0;
    let mut inside = false;
    for byte in field {
        if byte.is_ascii_digit() {
            if !inside {
                count = count.saturating_add(1);
            }
            inside = true;
        } else if *byte == mark && inside {
            inside = false;
        } else {
            return 0;
        }
    }
    if inside { count } else { 0 }
}

// Whether so many digits may stand before a mark, after so many others.
fn is_group(groups: usize, length: usize) -> bool {
    length == 3 || groups == 0 && (length == 1 || length == 2)
}

// Whether three digits stand after each mark, and up to three before the first.
fn is_grouped(field: &[u8], mark: u8) -> bool {
    let mut groups: usize = 0;
    let mut length: usize = 0;
    for byte in field {
        if byte.is_ascii_digit() {
            length = length.saturating_add(1);
        } else if *byte != mark || !is_group(groups, length) {
            return false;
        } else {
            groups = groups.saturating_add(1);
            length = 0;
        }
    }
    groups > 0 && length == 3
}

// Whether a field is a number with a mark between its thousands: `.` counts where it stands twice or more.
fn is_thousands(field: &[u8]) -> bool {
    for mark in b", '_" {
        if is_grouped(field, *mark) {
            return true;
        }
    }
    is_grouped(field, b'.') && parts(field, b'.') > 2
}

// Whether a field is a date, or begins with one of ten bytes.
fn is_date(field: &[u8]) -> bool {
    let day = match field.get(..10) {
        Some(day) => day,
        None => field,
    };
    parts(field, b'/') > 1
        || parts(field, b'-') > 1
        || parts(day, b'-') == 3
        || parts(day, b'/') == 3
        || parts(field, b'.') == 3 && !is_grouped(field, b'.')
}

// Whether all bytes are digits, or stand among these marks.
fn has_only(field: &[u8], marks: &[u8]) -> bool {
    for byte in field {
        if !byte.is_ascii_digit() && !has_byte(marks, *byte) {
            return false;
        }
    }
    true
}

// Whether all bytes are digits, points, commas or blanks, and there is a digit.
fn is_amount(field: &[u8]) -> bool {
    has_digit(field) && has_only(field, b"., ")
}

// Signs and names of currencies.
static SIGNS: [&[u8]; 11] = [
    b"$",
    b"\xc2\xa3",
    b"\xc2\xa5",
    b"\xe2\x82\xac",
    b"EUR",
    b"USD",
    b"GBP",
    b"CHF",
    b"JPY",
    b"kr",
    b"Fr.",
];

// Whether a currency stands before or after a number.
fn has_currency(field: &[u8]) -> bool {
    let digits = unsigned(field);
    if !has_digit(digits) {
        return false;
    }
    for sign in &SIGNS {
        if digits.starts_with(sign) || digits.ends_with(sign) {
            return true;
        }
    }
    false
}

// Whether a field is a number with an exponent.
fn has_exponent(field: &[u8]) -> bool {
    matches!(field, [b'0'..=b'9', ..]) && has_letter(field) && has_only(field, b".,+-eE")
}

// Whether a field is a plus and digits.
fn has_plus(field: &[u8]) -> bool {
    match field {
        [b'+', rest @ ..] => is_digits(rest),
        _ => false,
    }
}

// What stands before and after a number, and what is told of it.
static AROUND: [(&[u8], &[u8], &[u8]); 5] = [
    (
        b"(",
        b")",
        b"an amount below 0 has a `-` before it, and no parentheses",
    ),
    (b"", b"-", b"a `-` stands before its number"),
    (
        b"",
        b"%",
        b"a percent sign has to go: rates in whole numbers of a smaller unit",
    ),
    (b"0x", b"", b"numbers are decimal"),
    (b"0X", b"", b"numbers are decimal"),
];

// Whether a field begins and ends so.
fn is_between(field: &[u8], front: &[u8], end: &[u8]) -> bool {
    field.starts_with(front) && field.ends_with(end)
}

// What is told of marks around a number.
fn around_hint(field: &[u8]) -> Option<&'static [u8]> {
    if has_plus(field) {
        return Some(b"a plus sign has to go");
    }
    if !has_digit(field) {
        return None;
    }
    for (front, end, told) in &AROUND {
        if is_between(field, front, end) {
            return Some(told);
        }
    }
    None
}

// What is told of quotes in a field.
fn quote_hint(field: &[u8]) -> Option<&'static [u8]> {
    if has_byte(field, b'"') {
        Some(b"a quote stands first and last in its field, or nowhere: no blank stands before it")
    } else if field.starts_with(b"'") {
        Some(b"quotes of this kind have to go: a number stands without quotes, or in double ones")
    } else {
        None
    }
}

// Whether a field is a time.
fn is_time(field: &[u8]) -> bool {
    has_byte(field, b':') && has_digit(field) && !has_letter(field)
}

// What is told of the digits and marks of a number.
fn amount_hint(digits: &[u8]) -> Option<&'static [u8]> {
    if is_thousands(digits) {
        Some(GROUPED)
    } else if is_grouped(digits, b'.') {
        Some(b"where the point stands between thousands it has to go; amounts in cents")
    } else if is_date(digits) {
        Some(DATE)
    } else if is_time(digits) {
        Some(b"a time is written as one number, as 630 minutes for 10:30")
    } else if is_amount(digits) {
        Some(CENTS)
    } else if has_exponent(digits) {
        Some(b"a number is written without an exponent, digit by digit")
    } else {
        None
    }
}

// What is told of a number with something beside its digits.
fn number_hint(field: &[u8]) -> Option<&'static [u8]> {
    if has_currency(field) {
        return Some(CURRENCY);
    }
    match around_hint(field) {
        Some(told) => Some(told),
        None => amount_hint(unsigned(field)),
    }
}

/// What is told of a field that is no whole number.
pub fn field_hint(field: &[u8]) -> Option<&'static [u8]> {
    let inner = trimmed(field);
    if inner.is_empty() {
        return Some(BLANK);
    }
    if is_whole(inner) {
        return Some(b"blanks beside a number have to go");
    }
    match quote_hint(inner) {
        Some(told) => Some(told),
        None => number_hint(inner),
    }
}
