// An input read whole into a lent slice: a read that fails is told from the end of the input.
#![tactic(auto)]

ghost use Rattle.std.specs.Prelude.{◌≡◌, ◌-◌, ◌≤◌, length, take, drop, OnErr};
ghost use Rattle.std.specs.Io.KnownBytes.{Keeps};
ghost use Rattle.std.specs.Result.{result_ok};
ghost use Rattle.whole_input.specs.Readings.{ended_at, input_of, Within, Gave, Filled, Ends, Told};

use std::io;
use std::io::Read;

// One read into `bytes`: how many bytes it put, 0 at the end of the input. Every error is a failure, also where a signal came before a byte did, and a read
// that fails has taken nothing.
fn read_once<R: Read>(file: &mut R, bytes: &mut [u8]) -> io::Result<usize>
    ensures within { Within (result_ok result) (length bytes.old) }
    ensures input { Gave (result_ok result) (R.remaining file.old) (R.remaining file.new) bytes.new }
    ensures kept { OnErr result (Keeps (R.remaining file.old) (R.remaining file.new)) }
{
    file.read(bytes)
}

// One read behind the first `done` bytes.
fn read_behind<R: Read>(file: &mut R, bytes: &mut [u8], done: usize) -> io::Result<usize>
    requires { done ≤ length bytes.old }
    ensures within { Within (result_ok result) (length bytes.old - done) }
    ensures front { take done bytes.new ≡ take done bytes.old }
    ensures input { Gave (result_ok result) (R.remaining file.old) (R.remaining file.new) (drop done bytes.new) }
    ensures kept { OnErr result (Keeps (R.remaining file.old) (R.remaining file.new)) }
{
    read_once(file, &mut bytes[done..])
}

// How many bytes an input of n bytes has, by what the read behind them answered: a read of 0 bytes tells it whole, and any other tells it partial.
fn ended_at(n: usize, got: io::Result<usize>) -> Option<usize>
    ensures { result ≡ ended_at n (result_ok got) }
{
    let m = got.ok()?;
    if m > 0 {
        return None;
    }
    Some(n)
}

// The slice is full: one byte more shows whether the input goes on, and n bytes are not all of it.
fn read_end<R: Read>(file: &mut R, n: usize) -> Option<usize>
    ensures within { Within result n }
    ensures input { Ends result n (R.remaining file.old) }
{
    let mut more = [0u8; 1];
    let got = read_once(file, &mut more);
    ended_at(n, got)
}

// Reads until the input ends or the slice is full, and tells how many bytes were put; a read that fails is handed on. (Not by `for`: a read may put fewer
// bytes than asked, so each turn leaves fewer bytes free, but not one fewer; and `read_to_end` needs a heap.)
pub fn read_full<R: Read>(file: &mut R, bytes: &mut [u8]) -> io::Result<usize>
    ensures within { Within (result_ok result) (length bytes.new) }
    ensures input { Filled (result_ok result) (R.remaining file.old) (R.remaining file.new) bytes.new }
{
    let mut done: usize = 0;
    while done < bytes.len() {
        let n = read_behind(file, bytes, done)?;
        if n == 0 {
            return Ok(done);
        }
        done += n;
    }
    Ok(done)
}

// Reads until the input ends, and tells how many bytes it has; none where only a part was read, since a read failed or there is more than fits. Where it is
// known which bytes a reader has left, as of one over memory, an input told whole is all of these.
pub fn read_whole<R: Read>(file: &mut R, bytes: &mut [u8]) -> Option<usize>
    ensures within { Within result (length bytes.new) }
    ensures input { Told (R.remaining file.old) (input_of result bytes.new) }
{
    let n = read_full(file, bytes).ok()?;
    if n < bytes.len() {
        return Some(n);
    }
    read_end(file, n)
}
