// Whether rows, slots and bytes are as told.
ghost use Rattle.std.specs.Prelude.{◌≡◌, ℕ, true};
ghost use Rattle.agreement.specs.Agree.{All, Same, Written, Left, Untouched};

// What every number holds that is lent: a call that should not touch it leaves it so.
pub const LENT: u32 = 2863311530;

// The same of a slot and of a byte.
pub const LENT_SLOT: u16 = 43690;

pub const LENT_BYTE: u8 = 170;

// An element of a slice that is lent: a number, a slot of active trees, a byte or a score.
pub trait Element: Copy {
    // The number that an element is told by: itself, or of a score its bits.
    ghost shown: { Self → ℕ };

    ghost LENT: { ℕ };

    // What every element is told by that is lent.
    const LENT: u64;

    // (Each `impl` has a body of its own: a default body would need `TryFrom` of all four, and a score is told by its bits. A number is brought to the element's
    // width, so that as many elements as fit a register are compared at once.)
    fn is(self, number: u64) -> bool
        ensures { result ≡ true → shown self ≡ number };
}

impl Element for u32 {
    ghost shown = { λ x. x };

    ghost LENT = { 2863311530 };

    const LENT: u64 = LENT as u64;

    fn is(self, number: u64) -> bool {
        u32::try_from(number).is_ok_and(|n| self == n)
    }
}

impl Element for u16 {
    ghost shown = { λ x. x };

    ghost LENT = { 43690 };

    const LENT: u64 = LENT_SLOT as u64;

    fn is(self, number: u64) -> bool {
        u16::try_from(number).is_ok_and(|n| self == n)
    }
}

impl Element for u8 {
    ghost shown = { λ x. x };

    ghost LENT = { 170 };

    const LENT: u64 = LENT_BYTE as u64;

    fn is(self, number: u64) -> bool {
        u8::try_from(number).is_ok_and(|n| self == n)
    }
}

pub fn same<T: Element>(elements: &[T], told: &[u32]) -> bool
    ensures { result ≡ true → Same T.shown elements.now told.now }
{
    elements.len() == told.len()
        && elements
            .iter()
            .zip(told)
            .all(|(x, number)| x.is(u64::from(*number)))
}

// (A loop: with `all` the elements were compared one by one, and the replay took a quarter more time.)
pub fn all_are<T: Element>(elements: &[T], number: u64) -> bool
    ensures { result ≡ true → All T.shown elements.now number }
{
    for i in 0..elements.len() {
        if !elements[i].is(number) {
            return false;
        }
    }
    true
}

// The rows told, and behind them nothing touched.
pub fn written<T: Element>(slice: &[T], rows: &[u32]) -> bool
    ensures { result ≡ true → Written T.shown slice.now rows.now T.LENT }
{
    let n = rows.len();
    n <= slice.len() && same(&slice[..n], rows) && untouched(slice, n)
}

// Nothing touched from a place on.
pub fn untouched<T: Element>(slice: &[T], place: usize) -> bool
    ensures { result ≡ true → Untouched T.shown slice.now place T.LENT }
{
    place <= slice.len() && all_are(&slice[place..], T::LENT)
}

// One number over the part that was used, and behind it nothing touched.
pub fn left<T: Element>(slice: &[T], used: usize, number: u64) -> bool
    ensures { result ≡ true → Left T.shown slice.now used number T.LENT }
{
    used <= slice.len() && all_are(&slice[..used], number) && untouched(slice, used)
}
