//! The worked rows: texts with the answers that the rules give for them. The program carries each row of the files that its
//! words name out as the program does, prints those that are answered otherwise, and then how many rows there were.
#![tactic(auto)]

mod answer;
mod line;
mod page;
mod row;
mod tally;

use crate::answer::answer_to_row;
use crate::page::rows_of;
use crate::row::{Answer, Row};
use crate::tally::Tally;
use std::io::Write;
use std::process::ExitCode;
use std::random::RandomSource;
use std::rt::Runtime;
use std::sync::Wait;
use std::thread::Threads;
use std::{env, fs, io};

/// The exit status is 0 only if each file was read and each row is answered as it says.
fn main(rt: HostRuntime) -> ExitCode {
    match carry_out_files(&rt) {
        Ok(tally) if tally.is_right() => ExitCode::SUCCESS,
        _ => ExitCode::FAILURE,
    }
}

/// Carries out the rows of all files, and prints how many there are.
fn carry_out_files<R>(rt: &R) -> io::Result<Tally>
where
    R: Runtime + AllocGlobal + RandomSource + Threads + Wait + Sync,
{
    let mut tally = Tally { rows: 0, wrong: 0 };
    for name in env::args(rt)?.skip(1) {
        let file = fs::read_to_string(rt, name.as_str())?;
        for row in rows_of(rt, file.as_str())?.iter() {
            tally.count(carry_out_row(rt, row)?);
        }
    }
    println!(rt; "{} rows, {} wrong", tally.rows, tally.wrong)?;
    Ok(tally)
}

/// Carries out a row with each of its words, and prints it where one is answered otherwise. The answer is whether all were
/// right.
fn carry_out_row<R>(rt: &R, row: &Row) -> io::Result<bool>
where
    R: Runtime + AllocGlobal + RandomSource + Threads + Wait + Sync,
{
    let mut are_right = true;
    for words in row.words.split(" | ") {
        let answer = answer_to_row(rt, words, row)?;
        if !row.is_answered_by(answer.status.code(), answer.bytes.as_slice()) {
            print_difference(rt, words, row, &answer)?;
            are_right = false;
        }
    }
    Ok(are_right)
}

fn print_difference<R: Print>(rt: &R, words: &str, row: &Row, answer: &Answer) -> io::Result<()> {
    println!(rt;
        "== {}\n-- {words}\nwanted {:?}",
        row.name.as_str(),
        row.status
    )?;
    io::writer(rt).write_all(row.answer.as_slice())?;
    println!(rt; "got {}", answer.status.code())?;
    io::writer(rt).write_all(row.told_part(answer.bytes.as_slice()))?;
    Ok(())
}
