// Decimal numbers in the text: an optional hyphen and digits, within i32. (What `str::parse` takes is more: a plus sign too.)
ghost use Rattle.std.specs.Prelude.{◌≡◌, [], ◌∷◌, ◌≤◌, pos, neg_ℤ};
ghost use Rattle.definition.specs.Text.{digits_from, magnitude, number, byte_of, flag_of, size_of};
ghost use Rattle.text_form.specs.Told.{told};
ghost use Rattle.text_form.specs.Parts.{Found};
ghost use Rattle.text_form.specs.Numbers.{bounded, asked_of};

// The first place of a byte in a text.
pub fn find_byte(text: &[u8], byte: u8) -> Option<usize>
    ensures { Found byte text.now result }
{
    text.iter().position(|b| *b == byte)
}

// One digit behind digits of this value; beyond the largest size of an i32 no digit is taken.
fn more_digits(value: u32, byte: u8) -> Option<u32>
    requires { value ≤ 2147483648 }
    ensures { told result ≡ bounded (digits_from value (byte ∷ [])) }
{
    if !byte.is_ascii_digit() {
        return None;
    }
    let more = u64::from(value) * 10 + u64::from(byte - b'0');
    if more > 2147483648 {
        return None;
    }
    Some(more as u32)
}

// The value of digits.
fn read_digits(digits: &[u8]) -> Option<u32>
    ensures { told result ≡ bounded (digits_from 0 digits.now) }
{
    let mut value = 0;
    for byte in digits {
        value = more_digits(value, *byte)?;
    }
    Some(value)
}

// The value of digits, of which there must be one.
fn read_magnitude(digits: &[u8]) -> Option<u32>
    ensures { told result ≡ bounded (magnitude digits.now) }
{
    if digits.is_empty() {
        return None;
    }
    read_digits(digits)
}

fn negated(size: u32) -> i32
    requires { size ≤ 2147483648 }
    ensures { result ≡ neg_ℤ (pos size) }
{
    let below = -i64::from(size);
    below as i32
}

// The number that a part of the text is.
pub fn read_number(part: &[u8]) -> Option<i32>
    ensures { told result ≡ number part.now }
{
    if let Some(digits) = part.strip_prefix(b"-") {
        let size = read_magnitude(digits)?;
        return Some(negated(size));
    }
    let size = read_magnitude(part)?;
    i32::try_from(size).ok()
}

// A byte, where the number is one.
pub fn byte_of(number: i32) -> Option<u8>
    ensures { told result ≡ byte_of number }
{
    u8::try_from(number).ok()
}

// 0 and 1 as a flag.
pub fn flag_of(number: i32) -> Option<bool>
    ensures { told result ≡ flag_of number }
{
    match number {
        0 => Some(false),
        1 => Some(true),
        _ => None,
    }
}

// The number, or 0 where it is below. (`asked_of` differs in one constant; a parameter for it would be no plainer than two functions of one line.)
pub fn size_of(number: i32) -> u32
    ensures { result ≡ size_of number }
{
    u32::try_from(number).unwrap_or(0)
}

// The paths asked; a number below 0 becomes one that is refused as too many.
pub fn asked_of(number: i32) -> u32
    ensures { result ≡ asked_of number }
{
    u32::try_from(number).unwrap_or(9)
}
