// Runs the cases that lie in its folder, and says which of them come out otherwise.
#![tactic(auto)]

mod case;
mod outcome;
mod report;
mod run;

use crate::case::{Case, cases_of};
use crate::outcome::Outcome;
use crate::report::reported;
use crate::run::ran;
use std::alloc::Global;
use std::fs;
use std::io::Print;
use std::sync::Wait;
use std::thread::Threads;

// The file that names the files of cases, one a line.
const INDEX: &str = "index";

// What comes of a case: of a run, or of a report that is read and written again.
fn outcome_of<R: Threads + Wait + Sync>(
    rt: &R,
    alloc: Global,
    case: &Case<'_>,
) -> anyhow::Result<Outcome> {
    let words = str::from_utf8(case.words)?;
    match words.strip_prefix("report ") {
        Some(targets) => reported(alloc, targets, &case.given),
        None => ran(rt, alloc, words, &case.given),
    }
}

// Runs the cases of a file, and tells whether each comes out as it says.
fn agree<R: Threads + Wait + Sync + Print>(
    rt: &R,
    alloc: Global,
    name: &str,
    text: &[u8],
) -> anyhow::Result<bool> {
    let mut all = true;
    for (number, case) in cases_of(alloc, text)?.iter().enumerate() {
        let came = outcome_of(rt, alloc, case)?;
        if came.ends.as_bytes() != case.ends || came.writes != case.writes {
            println!(rt; "{name}: case {number} ends with {}", came.ends)?;
            all = false;
        }
    }
    Ok(all)
}

fn main(rt: HostRuntime) -> anyhow::Result<()> {
    let alloc = rt.alloc();
    let mut all = true;
    for name in fs::read_to_string(&rt, INDEX)?.lines() {
        let text = fs::read(&rt, name)?;
        all &= agree(&rt, alloc, name, &text)?;
    }
    if all {
        println!(rt; "all cases agree")?;
    }
    Ok(())
}
