// The form of the data: numbers in text, a list as its length and then its elements. Numbers and bytes are written into lent slices, and how many is told
// beside them: a Vec needs a heap.
ghost use Rattle.std.specs.Prelude.{◌≡◌, ◌≤◌, length, drop};
ghost use Rattle.std.specs.Iterator.{at_most};
ghost use Rattle.known_answers.specs.Parts.{Parted, Steps};

// How far the text is read: the number whose digits were read and that is not ended, and how many numbers are behind it.
#[derive(Clone, Copy)]
pub struct Scan {
    pub number: Option<u32>,
    pub count: usize,
}

// A number is a run of digits, and what does not fit 32 bits stays at the largest number; whatever is no digit ends it.
fn scan_byte(byte: u8, scan: Scan, numbers: &mut [u32]) -> Scan
    requires { scan.count ≤ length numbers.old }
    ensures { result.count ≤ length numbers.old }
{
    if byte.is_ascii_digit() {
        let tens = scan.number.unwrap_or(0).saturating_mul(10);
        return Scan {
            number: Some(tens.saturating_add(u32::from(byte - b'0'))),
            count: scan.count,
        };
    }
    let Some(number) = scan.number else {
        return scan;
    };
    if scan.count >= numbers.len() {
        return scan;
    }
    numbers[scan.count] = number;
    Scan {
        number: None,
        count: scan.count + 1,
    }
}

// Writes the numbers of a text, and tells how many there are; a number counts once something stands behind it.
pub fn read_numbers(text: &[u8], numbers: &mut [u32]) -> usize
    ensures { result ≤ length numbers.old }
{
    let mut scan = Scan {
        number: None,
        count: 0,
    };
    for byte in text {
        scan = scan_byte(*byte, scan, numbers);
    }
    scan.count
}

pub fn low_byte(number: u32) -> u8 {
    (number & 0xff) as u8
}

// The number at a place, and 0 beyond the end: an answer leaves out the zeros behind a refusal.
pub fn field(numbers: &[u32], place: usize) -> u32 {
    numbers.get(place).copied().unwrap_or(0)
}

// All numbers from a place on, none beyond the end.
pub fn behind(numbers: &[u32], place: usize) -> &[u32]
    ensures { result.now ≡ drop place numbers.now }
{
    let n = numbers.len();
    &numbers[place.min(n)..]
}

// The first list, whose length stands in front of it, and the numbers behind it; a list that the numbers cut short ends with them.
pub fn split_list(numbers: &[u32]) -> (&[u32], &[u32])
    ensures { Parted numbers.now result.0.now result.1.now }
{
    let Some((size, rest)) = numbers.split_first() else {
        return (numbers, numbers);
    };
    rest.split_at((*size as usize).min(rest.len()))
}

// The lists that numbers are, one behind the other.
#[derive(Clone, Drop)]
pub struct Lists<'a>(pub &'a [u32]);

impl<'a> Iterator for Lists<'a> {
    type Item = &'a [u32];

    ghost next_gives = { Steps };

    ghost remaining = { λ s. at_most (length s.0.now) };

    fn next(&mut self) -> Option<&'a [u32]> {
        if self.0.is_empty() {
            return None;
        }
        let (list, behind) = split_list(self.0);
        self.0 = behind;
        Some(list)
    }
}

// Writes a byte some times from a place on, as far as there is room; the place behind.
fn repeat(bytes: &mut [u8], place: usize, byte: u8, times: usize) -> usize
    requires { place ≤ length bytes.old }
    ensures { result ≤ length bytes.old }
{
    let end = place + times.min(bytes.len() - place);
    bytes[place..end].fill(byte);
    end
}

// Writes bytes that are told as runs: a number is its byte, and 256 more for each time that the byte stands there again.
pub fn unpack(runs: &[u32], bytes: &mut [u8]) -> usize
    ensures { result ≤ length bytes.old }
{
    let mut at = 0;
    for number in runs {
        at = repeat(bytes, at, low_byte(*number), *number as usize / 256 + 1);
    }
    at
}
