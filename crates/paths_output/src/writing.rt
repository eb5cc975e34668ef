// What is printed, written into a lent slice one piece behind the other. Each writer tells the place behind what it wrote.
// (`out` and `at` are a lent slice and the place behind what is written in it: a `String` needs a heap.)
// Not by `write!`: it may fail, and std promises its text only where it did not, while these writers cannot fail.
ghost use Rattle.std.specs.Prelude.{◌≡◌, not, [], ◌∷◌, ◌++◌, ◌+◌, ◌<◌, ◌≤◌, T, length};
ghost use Rattle.std.specs.Float.Ieee.{is_nan};
ghost use Rattle.definition.specs.Text.{decimal, hex_digit, hexadecimal, path_line, first_line, refused_line};
ghost use Rattle.paths_output.specs.Written.{Wrote};

fn write_byte(out: &mut [u8], at: usize, byte: u8) -> usize
    requires { at < length out.old }
    ensures { Wrote out.old out.new at (byte ∷ []) result }
{
    out[at] = byte;
    at + 1
}

fn write_bytes(out: &mut [u8], at: usize, text: &[u8]) -> usize
    requires { at + length text.now ≤ length out.old }
    ensures { Wrote out.old out.new at text.now result }
{
    let next = at + text.len();
    out[at..next].copy_from_slice(text);
    next
}

// The digits before the last one are those of a tenth.
fn write_decimal(out: &mut [u8], at: usize, n: u32) -> usize
    requires { at + length (decimal n) ≤ length out.old }
    ensures { Wrote out.old out.new at (decimal n) result }
{
    if n <= 9 {
        return write_byte(out, at, b'0' + n as u8);
    }
    let next = write_decimal(out, at, n / 10);
    write_byte(out, next, b'0' + (n % 10) as u8)
}

// 0 to 9, then a to f.
fn hex_digit(d: u8) -> u8
    requires { d < 16 }
    ensures { result ≡ hex_digit d }
{
    match d {
        0..=9 => b'0' + d,
        _ => b'a' + (d - 10),
    }
}

// The lowest digits of n, as many as are asked; those before the last one are those of a sixteenth.
fn write_hexadecimal(out: &mut [u8], at: usize, digits: usize, n: u64) -> usize
    requires { at + digits ≤ length out.old }
    ensures { Wrote out.old out.new at (hexadecimal digits n) result }
{
    if digits == 0 {
        return at;
    }
    let next = write_hexadecimal(out, at, digits - 1, n / 16);
    write_byte(out, next, hex_digit((n % 16) as u8))
}

// A number and the byte behind it.
fn write_number(out: &mut [u8], at: usize, n: u32, stop: u8) -> usize
    requires { at + length (decimal n ++ stop ∷ []) ≤ length out.old }
    ensures { Wrote out.old out.new at (decimal n ++ stop ∷ []) result }
{
    let next = write_decimal(out, at, n);
    write_byte(out, next, stop)
}

// The line of a refusal.
pub fn write_refused(out: &mut [u8], at: usize, number: u32) -> usize
    requires { at + length (refused_line number) ≤ length out.old }
    ensures { Wrote out.old out.new at (refused_line number) result }
{
    let next = write_bytes(out, at, b"refused ");
    write_number(out, next, number, b'\n')
}

// The first line of a list.
pub fn write_first(out: &mut [u8], at: usize, paths: u32, pushes: u32) -> usize
    requires { at + length (first_line paths pushes) ≤ length out.old }
    ensures { Wrote out.old out.new at (first_line paths pushes) result }
{
    let listed = write_bytes(out, at, b"paths ");
    let word = write_decimal(out, listed, paths);
    let pushed = write_bytes(out, word, b" pushes ");
    write_number(out, pushed, pushes, b'\n')
}

// The line of a path.
pub fn write_path(
    out: &mut [u8],
    at: usize,
    rank: u32,
    score: f64,
    closing: u32,
    edges: u32,
    bases: &[u8],
) -> usize
    requires { T (not (is_nan score)) × (at + length (path_line rank score closing edges bases.now) ≤ length out.old) }
    ensures { Wrote out.old out.new at (path_line rank score closing edges bases.now) result }
{
    let bits = score.to_bits();
    let a = write_number(out, at, rank, b' ');
    let b = write_hexadecimal(out, a, 16, bits);
    let c = write_byte(out, b, b' ');
    let d = write_number(out, c, closing, b' ');
    let e = write_number(out, d, edges, b' ');
    let f = write_bytes(out, e, bases);
    write_byte(out, f, b'\n')
}
