// The program `paths`: a text on standard input, the column in a file, the list or a refusal on standard output.
#![tactic(auto)]

mod answer; // answer.rt: from what was read to what is printed

ghost use Rattle.std.specs.Prelude.{◌≡◌, length};
ghost use Rattle.whole_input.specs.Readings.{Within};
ghost use Rattle.paths.specs.Printing.{Printed};

use answer::answer;
use paths_input::take_column;
use std::fs;
use std::io::Read;
use std::rt::Files;
use whole_input::read_whole;

// The column file; one that is missing is answered like one that could not be read whole.
fn read_file(files: &impl Files, bytes: &mut [u8]) -> Option<usize>
    ensures { Within result (length bytes.new) }
{
    let mut file = fs::open(files, "column.f64").ok()?;
    read_whole(&mut file, bytes)
}

// What is printed. The buffer of the text holds the column file first, and at the end what is printed.
fn run<R: Read>(files: &impl Files, input: &mut R, text: &mut [u8], column: &mut [f64]) -> usize
    requires { (length text.old ≡ 8192) × (length column.old ≡ 512) }
    ensures { Printed text.new result }
{
    let file = read_file(files, text);
    let entries = take_column(file, text, column);
    let read = read_whole(input, text);
    answer(entries, read, text, column)
}

// Standard input is read without a buffer of its own.
fn main(rt: HostRuntime) {
    let mut text = [0u8; 8192];
    let mut column = [0.0f64; 512];
    let size = run(&rt, &mut rt.stdin(), &mut text, &mut column);
    let written = rt.write_all(&text[..size]);
    if written.is_err() {
        let _ = eprintln!(rt; "paths: the output could not be written whole");
    }
}
