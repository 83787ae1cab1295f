// The program: a job on standard input to its clipboard page on standard output, or to `R 1` and the refusal's number (#103).
#![tactic(auto)]

mod text;

use std::io::Write;

// Reads one byte more than a job file may have, so that a longer job is refused, not cut: `page_output_start` of promises.
// What a program reads and writes no contract tells, so `main` is these five lines and nothing else, in each of the programs.
fn main(rt: HostRuntime) -> std::io::Result<()> {
    let mut job = [0u8; 16385];
    let mut reader = rt.reader();
    let n = input::read_full(&mut reader, &mut job)?;
    let text = text::text_of(&job[..n]);
    std::io::writer(&rt).write_all(text.as_slice())
}
