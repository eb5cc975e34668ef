// Replays answers of the oracle through the proved calls; vectors/README.md tells the form of the data.
#![tactic(auto)]

mod cases;
mod lists;

use known_answers::column::read_entries;
use known_answers::numbers::{read_numbers, split_list};
use std::io;
use whole_input::read_full;

// The data tell the first places of log10; those behind them hold the largest entry that a column may have, and are not read by any call of the sample.
fn replay_data(rt: &impl Print, numbers: &[u32]) -> cases::Total {
    let mut log10 = [16.0f64; 65536];
    let (column, cases) = split_list(numbers);
    let _ = read_entries(column, &mut log10);
    cases::replay(rt, cases, &log10)
}

fn replay_text(rt: &impl Print, text: &[u8]) -> cases::Total {
    let mut numbers = [0u32; 131072];
    let count = read_numbers(text, &mut numbers);
    replay_data(rt, &numbers[..count])
}

fn main(rt: HostRuntime) -> io::Result<()> {
    let mut text = [0u8; 327680];
    let n = read_full(&mut rt.stdin(), &mut text)?;
    let total = replay_text(&rt, &text[..n]);
    let passed = total.passed;
    let failed = total.failed;
    println!(rt; "passed {passed} failed {failed}")
}
