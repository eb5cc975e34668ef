// The column file: eight bytes an entry, lowest first.
ghost use Rattle.std.specs.Prelude.{◌≡◌, ◌+◌, ◌≤◌, length, take, drop};
ghost use Rattle.std.specs.Float.{binary64};
ghost use Rattle.std.specs.Float.Ieee.{of_bits};
ghost use Rattle.definition.specs.Text.{lowest_first, column_of};
ghost use Rattle.paths_text.specs.Entries.{Decoded};

// The number at a place, of eight bytes.
fn word_at(bytes: &[u8], at: usize) -> u64
    requires { at + 8 ≤ length bytes.now }
    ensures { result ≡ lowest_first (take 8 (drop at bytes.now)) }
{
    let word = bytes[at..].first_chunk::<8>().unwrap();
    u64::from_le_bytes(*word)
}

// The float of a pattern; every pattern of a NaN is one NaN.
fn float_of(bits: u64) -> f64
    ensures { result ≡ of_bits binary64 bits }
{
    let exponent = bits % 9223372036854775808 / 4503599627370496;
    let digits = bits % 4503599627370496;
    if exponent == 2047 && digits != 0 {
        return f64::NAN;
    }
    f64::from_bits(bits)
}

// The entries of the file, from the front of `column`, and how many there are; what is beyond them is unchanged, and all of it where the file is ragged or
// too long, which has none.
pub fn read_column(bytes: &[u8], column: &mut [f64]) -> Option<usize>
    requires { 512 ≤ length column.old }
    ensures { Decoded (column_of bytes.now) column.old column.new result }
{
    let size = bytes.len();
    if size % 8 != 0 || size > 4096 {
        return None;
    }
    let count = size / 8;
    // By place: with `chunks_exact` each turn would have to show that its chunk has eight bytes, and the entries would need an iterator beside it.
    for i in 0..count {
        column[i] = float_of(word_at(bytes, i * 8));
    }
    Some(count)
}
