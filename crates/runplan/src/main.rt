// Reads a plan file and then speeds from standard input, and prints the run line by line. What is
// printed is crate `program`'s `output` of what is read; this crate only moves the bytes. No
// contract can say which bytes a read or a write moves, so the contracts here speak of what the
// buffers hold and of two counts: of bytes heard, to which only `hear` adds, and of bytes told, to
// which only `write_line` adds.
#![tactic(auto)]

ghost use Rattle.std.specs.Prelude.{◌≡◌, ◌&&◌, not, ◌+◌, ◌^◌, ◌≤◌, ◌<◌, length, take, replicate};
ghost use Rattle.plan.specs.Edition.{places};
ghost use Rattle.planfields.specs.Layout.{largest_file, file_bytes};
ghost use Rattle.planfile.specs.Reader.{reader};
ghost use Rattle.lines.specs.Answers.{length_of};
ghost use Rattle.lines.specs.Lines.{longest_line};
ghost use Rattle.runplan.specs.Counts.{IsPrefixLen};
ghost use Rattle.program.specs.Turns.{opened, over, speed_bytes, most_read, Tells, TellsSome, Played, WholeProgram};

use lines::LONGEST_LINE;
use plan::edition::Edition;
use planfields::layout::Layout;
use planfile::extent::file_bytes;
use program::{Progress, Turn, advance, is_over, is_reading, open};
use std::io::{Read, Stdin, Stdout, Write};

// The number of bytes of a speed.
const SPEED_BYTES: usize = 2;

// The greatest number of turns after the first. A proved loop has to end, but an input need not: no
// input uses up this count, and the bytes of as many of the longest lines can still be counted.
const MOST_TURNS: usize = usize::MAX / (LONGEST_LINE + 1);

// The answer of a read: the number of bytes that came, and the count of bytes heard so far.
#[derive(Clone, Copy)]
struct Came {
    bytes: usize,
    heard: usize,
}

// The answer of a write: the count of bytes told so far, and whether all were written.
#[derive(Clone, Copy)]
struct Written {
    told: usize,
    all: bool,
}

// What was done so far: the progress, the counts of bytes heard and told, and whether the last line
// was written.
#[derive(Clone, Copy)]
struct Done {
    progress: Progress,
    heard: usize,
    told: usize,
    written: bool,
}

// Reads until a buffer is full, the input ends or a read fails; returns the number of bytes that came,
// which stand at the buffer's start. No byte after them is read.
fn read_full(stdin: Stdin, buffer: &mut [u8]) -> usize
    ensures { IsPrefixLen result buffer.new }
{
    let mut input = stdin;
    let mut done = 0;
    while done < buffer.len() {
        let came = input.read(&mut buffer[done..]).unwrap_or(0);
        if came == 0 {
            break;
        }
        done += came;
    }
    done
}

// Writes all bytes, or stops at the first write that takes none or fails; returns whether all were
// written.
fn write_all(stdout: Stdout, bytes: &[u8]) -> bool {
    let mut output = stdout;
    let mut done = 0;
    while done < bytes.len() {
        let taken = output.write(&bytes[done..]).unwrap_or(0);
        if taken == 0 {
            return false;
        }
        done += taken;
    }
    true
}

// Reads until a buffer is full or the input ends, and adds the number of bytes that came to the count
// of bytes heard. Nothing else reads.
fn hear(stdin: Stdin, heard: usize, buffer: &mut [u8]) -> Came
    requires { heard + length buffer.old < 2 ^ 64 }
    ensures { IsPrefixLen result.bytes buffer.new × (result.heard ≡ heard + result.bytes) }
{
    let bytes = read_full(stdin, buffer);
    let heard = heard + bytes;
    Came { bytes, heard }
}

// Writes a line, and adds its length to the count of bytes told. Nothing else writes.
fn write_line(stdout: Stdout, told: usize, line: &[u8]) -> Written
    requires { told + length line.now < 2 ^ 64 }
    ensures { result.told ≡ told + length line.now }
{
    let all = write_all(stdout, line);
    let told = told + line.len();
    Written { told, all }
}

// The length of a turn's line; 0 if it was refused.
fn length_of(turn: Turn) -> usize
    ensures { result ≡ length_of turn.printed }
{
    turn.printed.unwrap_or(0)
}

// Writes the line of a turn, which stands at the start of the line buffer.
fn tell(stdout: Stdout, heard: usize, told: usize, turn: Turn, line: &[u8]) -> Done
    requires { (length_of turn.printed ≤ length line.now) × (told + length line.now < 2 ^ 64) }
    ensures { (result.progress ≡ turn.progress) × (result.heard ≡ heard) × (result.told ≡ told + length_of turn.printed) }
{
    let written = write_line(stdout, told, &line[..length_of(turn)]);
    Done {
        progress: turn.progress,
        heard,
        told: written.told,
        written: written.all,
    }
}

// Reads into a file buffer from one offset up to another; returns the offset at which the bytes that
// came end. The bytes before are unchanged.
fn read_part(stdin: Stdin, file: &mut [u8], from: usize, to: usize) -> usize
    requires { (from ≤ to) × (to ≤ length file.old) }
    ensures { (from ≤ result) × (result ≤ to) × (take from file.new ≡ take from file.old) }
{
    hear(stdin, from, &mut file[from..to]).heard
}

// Reads the plan file and no byte after it; returns the number of its bytes that came.
fn read_file(stdin: Stdin, file: &mut [u8]) -> usize
    requires { length file.old ≡ largest_file }
    ensures prefix_len { IsPrefixLen result file.new }
    ensures upper_bound { result ≤ file_bytes (take result file.new) }
{
    let first = read_part(stdin, file, 0, Layout::OPENING_BYTES);
    let size = file_bytes(&file[..first]);
    read_part(stdin, file, first, size)
}

// The first turn, after all bytes of a plan file.
fn begin(stdout: Stdout, file: &[u8], table: &mut [u32], line: &mut [u8]) -> Done
    requires { length line.old ≡ longest_line }
    ensures tells { Tells (opened (reader file.now table.old)) 0 result.progress result.told line.new }
    ensures table_after { (table.new ≡ (reader file.now table.old).table) × (result.heard ≡ length file.now) }
{
    let turn = open(file, table, line);
    tell(stdout, file.len(), 0, turn, line)
}

// Reads the bytes for a turn: those of a speed if the progress takes one, otherwise none.
fn read_speed(stdin: Stdin, progress: Progress, heard: usize, speed: &mut [u8]) -> Came
    requires { (length speed.old ≡ speed_bytes) × (heard + speed_bytes < 2 ^ 64) }
    ensures { IsPrefixLen result.bytes speed.new × (result.bytes ≤ most_read progress.phase) × (result.heard ≡ heard + result.bytes) }
{
    if !is_reading(progress) {
        return Came { bytes: 0, heard };
    }
    hear(stdin, heard, speed)
}

// One turn after the first; its line is written before more is read.
fn one(stdin: Stdin, stdout: Stdout, done: Done, table: &[u32], line: &mut [u8]) -> Done
    requires { (length line.old ≡ longest_line) × (done.heard + speed_bytes < 2 ^ 64) × (done.told + longest_line < 2 ^ 64) }
    ensures { TellsSome done.progress table.now done.heard done.told result.progress result.heard result.told line.new }
{
    let mut speed = [0u8; SPEED_BYTES];
    let came = read_speed(stdin, done.progress, done.heard, &mut speed);
    let turn = advance(done.progress, table, &speed[..came.bytes], line);
    tell(stdout, came.heard, done.told, turn, line)
}

// Whether there is more to tell: not after a failed write.
fn goes_on(done: Done) -> bool
    ensures { result ≡ (done.written && not (over done.progress.phase)) }
{
    done.written && !is_over(done.progress)
}

// All turns after the first.
fn play(stdin: Stdin, stdout: Stdout, first: Done, table: &[u32], line: &mut [u8]) -> Done
    requires { (length line.old ≡ longest_line) × (first.heard ≤ largest_file) × (first.told ≤ longest_line) }
    ensures { Played first.progress table.now first.heard first.told result.progress result.heard result.told result.written }
{
    let mut done = first;
    for turn in 0..MOST_TURNS {
        if !goes_on(done) {
            break;
        }
        done = one(stdin, stdout, done, table, line);
    }
    done
}

// The whole program, over lent buffers.
fn run(stdin: Stdin, stdout: Stdout, file: &mut [u8], table: &mut [u32], line: &mut [u8]) -> Done
    requires { (length file.old ≡ largest_file) × (table.old ≡ replicate places 0) × (length line.old ≡ longest_line) }
    ensures { WholeProgram file.new result.progress result.heard result.told result.written }
{
    let size = read_file(stdin, file);
    let first = begin(stdout, &file[..size], table, line);
    play(stdin, stdout, first, table, line)
}

// Lends the buffers. Nothing of them is left after it, so nothing can be promised of it.
fn main(rt: HostRuntime) {
    let mut file = [0u8; Layout::LARGEST_FILE];
    let mut table = [0u32; Edition::PLACES];
    let mut line = [0u8; LONGEST_LINE];
    run(rt.stdin(), rt.stdout(), &mut file, &mut table, &mut line);
}
