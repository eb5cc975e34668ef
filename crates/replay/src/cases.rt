// The cases: a sample, and the calls that are made on it.
use crate::lists::list_agrees_over;
use known_answers::calls::{graph_agrees, lengths_agree, origin_agrees};
use known_answers::numbers::{Lists, behind, field, low_byte, split_list, unpack};
use samples::{Sample, Text};

#[derive(Clone, Copy)]
pub struct Total {
    pub passed: u64,
    pub failed: u64,
}

// Tells the number of a call that failed, counted from 1 over all files.
fn report(rt: &impl Print, total: Total) {
    let number = total.passed.wrapping_add(total.failed).wrapping_add(1);
    let _ = println!(rt; "not as told: call {number}");
}

fn counted(rt: &impl Print, total: Total, agrees: bool) -> Total {
    if agrees {
        return Total {
            passed: total.passed.wrapping_add(1),
            ..total
        };
    }
    report(rt, total);
    Total {
        failed: total.failed.wrapping_add(1),
        ..total
    }
}

// A call's first number is its kind. (No enum: the kind is a number of the data, and only this function looks at it.)
fn replay_call(call: &[u32], sample: Sample, log10: &[f64]) -> bool {
    match field(call, 0) {
        1 => graph_agrees(call, sample),
        2 => origin_agrees(call, sample),
        3 => lengths_agree(call),
        4 => list_agrees_over(call, sample, log10),
        _ => false,
    }
}

// All calls of a case, a list each.
fn replay_calls(
    rt: &impl Print,
    calls: &[u32],
    sample: Sample,
    log10: &[f64],
    total: Total,
) -> Total {
    let mut sum = total;
    for call in Lists(calls) {
        let agrees = replay_call(call, sample, log10);
        sum = counted(rt, sum, agrees);
    }
    sum
}

// The lists behind the reference: where reads end, bases, qualities; then the calls.
fn replay_reads<'a>(
    rt: &impl Print,
    case: &[u32],
    lists: &'a [u32],
    reference: &'a [u8],
    log10: &[f64],
    total: Total,
) -> Total {
    let mut bases = [0u8; 40960];
    let mut qualities = [0u8; 40960];
    let (ends, behind_ends) = split_list(lists);
    let (bases_told, behind_bases) = split_list(behind_ends);
    let (qualities_told, calls) = split_list(behind_bases);
    let base_count = unpack(bases_told, &mut bases);
    let quality_count = unpack(qualities_told, &mut qualities);
    let sample = Sample {
        k: field(case, 0),
        quality: low_byte(field(case, 1)),
        text: Text {
            reference,
            bases: &bases[..base_count],
        },
        ends,
        qualities: &qualities[..quality_count],
    };
    replay_calls(rt, calls, sample, log10, total)
}

// A case: k, the minimum quality, the reference as a list, the reads and the calls.
fn replay_case(rt: &impl Print, case: &[u32], log10: &[f64], total: Total) -> Total {
    let mut reference = [0u8; 2048];
    let (told, lists) = split_list(behind(case, 2));
    let length = unpack(told, &mut reference);
    replay_reads(rt, case, lists, &reference[..length], log10, total)
}

// All cases, the lists of the data.
pub fn replay(rt: &impl Print, numbers: &[u32], log10: &[f64]) -> Total {
    let mut total = Total {
        passed: 0,
        failed: 0,
    };
    for case in Lists(numbers) {
        total = replay_case(rt, case, log10, total);
    }
    total
}
