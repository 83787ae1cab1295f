// Runs jobfile::read_job on jobs good and bad and prints the number of each verdict: 0 if the job is admitted.
//
// The jobs are data: `stdin` has them one behind the other, 234 of them in 84,816 bytes. Each is a line with a letter, a space
// and the job's name, then the job's bytes as they are, then byte 30, which no job has. The letter is J for a job, T for one
// that is also cut off behind each of its bytes. To add a job, write it behind another and its verdict into `stdout`.
//
// By document 01's table: the six policies, the largest and smallest numbers of each kind and those one beyond, counts that do
// not fit the lines, sections out of order, numbers and words spelt otherwise, bytes in front, between and behind, two causes at
// once; 383 to 385 records, 500 of one cell, and files of 16,384 and 16,385 bytes. By request #106: the sections M and H with and without
// each other, in their place and out of it, their numbers at the bounds and one beyond, and the stock of shut aisles. By request #109:
// the third line of the L section, its word spelt otherwise or missing, other counts, and the posts' numbers before it.
#![tactic(auto)]

use std::io::{Result, Write};

// What stands behind each job.
const BEHIND: u8 = 30;

// Prints the number of the verdict on some bytes.
fn print_verdict(rt: &HostRuntime, bytes: &[u8]) -> Result<()> {
    let number = match jobfile::read_job(bytes).verdict {
        Ok(()) => 0,
        Err(cause) => u32::from(cause),
    };
    print!(rt; "{number}")
}

// Prints the verdicts on a job cut off behind each of its bytes, none to all.
fn print_truncations(rt: &HostRuntime, bytes: &[u8]) -> Result<()> {
    for end in 0..=bytes.len() {
        print_verdict(rt, &bytes[..end])?;
    }
    Ok(())
}

// Prints a line: the name of a job and the verdict on it, or on its parts. An entry with no line is passed by.
fn show(rt: &HostRuntime, entry: &[u8]) -> Result<()> {
    if let Some(line) = entry.iter().position(|byte| *byte == b'\n') {
        if 2 <= line {
            let job = &entry[line + 1..];
            std::io::writer(rt).write_all(&entry[2..line])?;
            print!(rt; ": ")?;
            if entry[0] == b'T' {
                print_truncations(rt, job)?;
            } else {
                print_verdict(rt, job)?;
            }
            println!(rt; "")?;
        }
    }
    Ok(())
}

// Shows the jobs one by one.
fn show_all(rt: &HostRuntime, jobs: &[u8]) -> Result<()> {
    for entry in jobs.split(|byte| *byte == BEHIND) {
        show(rt, entry)?;
    }
    Ok(())
}

fn main(rt: HostRuntime) -> Result<()> {
    let mut jobs = [0u8; 131072];
    let mut reader = rt.reader();
    let n = input::read_full(&mut reader, &mut jobs)?;
    show_all(&rt, &jobs[..n])
}
