// The penalty of `kbest_haplotype.rs` over the lent logarithm column, whose place n holds log10 of n, and the limits on that column.
#![tactic(auto)]

ghost use Rattle.std.specs.Prelude.{◌≡◌, ◌&&◌, drop};
ghost use Rattle.std.specs.Float.Ieee.{le};
ghost use Rattle.definition.specs.Limits.{float_zero, sixteen, climbing, column_fits};
ghost use Rattle.definition.specs.Score.{column_penalty};
ghost use Rattle.kbest_haplotype.specs.Penalties.{penalty_of, priced};

use refusals::Refusal;

// The logarithm of the count less that of the total; a fork of no support costs nothing, and an edge that no read supports is scored as one that a single
// read supports.
pub fn log_penalty(column: &[f64], count: u32, total: u32) -> Result<f64, Refusal>
    ensures { penalty_of result ≡ priced (column_penalty column.now count total) }
{
    if total < 1 {
        return Ok(0.0);
    }
    let support = count.max(1) as usize;
    let outgoing = total as usize;
    if support >= column.len() || outgoing >= column.len() {
        return Err(Refusal::NoPlace);
    }
    Ok(column[support] - column[outgoing])
}

// Whether the logarithm y may follow x: where x is finite, a y that passes is finite too, since a NaN compares as false.
fn climbs(x: f64, y: f64) -> bool
    ensures { result ≡ (le x y && le y sixteen) }
{
    x <= y && y <= 16.0
}

// Whether every place from 1 on may follow the one before it; place 0 is not read. (A `for` that carries the last logarithm along: the contract compares
// place 1 with zero, which `is_sorted_by` does not. By place, since the loop's invariant speaks of the entries from a place on. Not inlined: inside a call for
// the list the column's address had no register, and was loaded anew at each of up to 65,536 places.)
#[inline(never)]
fn column_climbs(column: &[f64]) -> bool
    ensures { result ≡ climbing float_zero (drop 1 column.now) }
{
    let mut last = 0.0;
    for place in 1..column.len() {
        let logarithm = column[place];
        if !climbs(last, logarithm) {
            return false;
        }
        last = logarithm;
    }
    true
}

// Whether the column is within the calls' limits: its length, zero at place 1, and its climb.
pub fn column_fits(column: &[f64]) -> bool
    ensures { result ≡ column_fits column.now }
{
    if column.len() < 2 {
        return false;
    }
    if column.len() > 65536 {
        return false;
    }
    if column[1] != 0.0 {
        return false;
    }
    column_climbs(column)
}
