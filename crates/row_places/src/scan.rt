// Where rows begin, by a scan of a file's bytes. What it finds is looked up by who calls it.
ghost use Rattle.std.specs.Prelude.{◌≡◌, ◌≤◌, length, IfSome};
ghost use Rattle.row_places.specs.Places.{is_line_end};

// Where a byte of a file stands.
#[derive(Clone, Copy, PartialEq, Eq)]
enum ScanState {
    RowStart,
    FieldStart,
    InField,
    InQuotes,
    // After a quote in quotes, which ends them unless another quote follows.
    QuoteEnd,
}

pub fn is_line_end(byte: u8) -> bool
    ensures { result ≡ is_line_end byte }
{
    byte == b'\n' || byte == b'\r'
}

// Where the byte after this one stands.
fn after(state: ScanState, byte: u8) -> ScanState {
    match (state, byte) {
        (ScanState::InQuotes, b'"') => ScanState::QuoteEnd,
        (ScanState::InQuotes, _) => ScanState::InQuotes,
        (ScanState::QuoteEnd | ScanState::RowStart | ScanState::FieldStart, b'"') =>
            ScanState::InQuotes,
        (_, b'\n' | b'\r') => ScanState::RowStart,
        (_, b',') => ScanState::FieldStart,
        _ => ScanState::InField,
    }
}

// How many bytes a byte order mark at the front takes.
fn mark_length(bytes: &[u8]) -> usize
    ensures { result ≤ length bytes.now }
{
    match bytes {
        [0xef, 0xbb, 0xbf, ..] => 3,
        _ => 0,
    }
}

/// Where the row of this number, from 1, seems to begin.
pub fn row_start(bytes: &[u8], row: u32) -> Option<usize> {
    let first = mark_length(bytes);
    let mut state = ScanState::RowStart;
    let mut rows: u32 = 0;
    for at in first..bytes.len() {
        if state == ScanState::RowStart && !is_line_end(bytes[at]) {
            rows = rows.saturating_add(1);
            if rows == row {
                return Some(at);
            }
        }
        state = after(state, bytes[at]);
    }
    None
}

/// Where a field of a row begins, by its number from 0, if it begins in the line in which the row does.
pub fn field_start(line: &[u8], field: usize) -> Option<usize>
    ensures { IfSome result (λ at. at ≤ length line.now) }
{
    if field == 0 {
        return Some(0);
    }
    let mut state = ScanState::RowStart;
    let mut passed: usize = 0;
    for at in 0..line.len() {
        state = after(state, line[at]);
        if state == ScanState::FieldStart {
            passed = passed.saturating_add(1);
            if passed == field {
                return Some(at + 1);
            }
        }
    }
    None
}
