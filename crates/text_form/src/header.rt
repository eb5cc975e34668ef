// The first line: five numbers, one space apart.
ghost use Rattle.std.specs.Prelude.{[], ◌∷◌, ◌+◌, ◌≤◌, length};
ghost use Rattle.definition.specs.Text.{settings, header};
ghost use Rattle.text_form.specs.Headers.{FieldSays, HeaderSays};

use crate::numbers::{asked_of, byte_of, find_byte, flag_of, read_number, size_of};

// The settings as the calls take them. k and the paths asked have no sign there, so k is 0 where it was below 0, and the paths asked are 9 where they were
// below 0: both are refused, as the number below 0 would be.
#[derive(Clone, Copy)]
pub struct Settings {
    pub k: u32,
    pub quality: u8,
    pub asked: u32,
    pub threshold: i32,
    pub recovery: bool,
}

// A number, and the place behind the space that ends it.
#[derive(Clone, Copy)]
pub struct Taken {
    pub number: i32,
    pub next: usize,
}

// The number at a place of the line.
fn read_field(line: &[u8], at: usize) -> Option<Taken>
    requires { at ≤ length line.now + 1 }
    ensures { FieldSays line.now at result }
{
    if at > line.len() {
        return None;
    }
    let rest = &line[at..];
    let size = find_byte(rest, b' ').unwrap_or(rest.len());
    let number = read_number(&rest[..size])?;
    Some(Taken {
        number,
        next: at + size + 1,
    })
}

// The five numbers as settings.
fn make_settings(k: i32, q: i32, n: i32, t: i32, r: i32) -> Option<Settings>
    ensures { HeaderSays result (settings (k ∷ q ∷ n ∷ t ∷ r ∷ [])) }
{
    let quality = byte_of(q)?;
    let recovery = flag_of(r)?;
    Some(Settings {
        k: size_of(k),
        quality,
        asked: asked_of(n),
        threshold: t,
        recovery,
    })
}

// The first line, without the line feed that ends it.
pub fn read_header(line: &[u8]) -> Option<Settings>
    ensures { HeaderSays result (header line.now) }
{
    let k = read_field(line, 0)?;
    let q = read_field(line, k.next)?;
    let n = read_field(line, q.next)?;
    let t = read_field(line, n.next)?;
    let r = read_field(line, t.next)?;
    if r.next <= line.len() {
        return None;
    }
    make_settings(k.number, q.number, n.number, t.number, r.number)
}
