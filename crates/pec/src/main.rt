//! The program: it makes the real objects and calls `run_pec`.
#![tactic(auto)]

mod screening;

use pec_doors::{SystemTicks, TcpDoor};
use pec_files::{FileDepot, Input, Output, words};
use pec_top::{Status, run_pec};
use screening::{screens, spares};
use std::io;
use std::process::ExitCode;
use std::time::Duration;

/// Where connections come in, on this machine alone.
const PORT: u16 = 8125;

/// How many seconds a connection has, all its reads and writes together.
const PATIENCE: u64 = 10;

fn main(rt: HostRuntime) -> ExitCode {
    let Ok(words) = words(&rt, rt.alloc()) else {
        return ExitCode::from(Status::NoMemory.code());
    };
    // Journals are files of the folder in which the program runs.
    let Ok(folder) = String::from_str(rt.alloc(), ".") else {
        return ExitCode::from(Status::NoMemory.code());
    };
    let Ok(screens) = screens(rt.alloc()) else {
        return ExitCode::from(Status::NoMemory.code());
    };
    let Ok(spares) = spares(rt.alloc()) else {
        return ExitCode::from(Status::NoMemory.code());
    };
    let mut depot = FileDepot::new(&rt, folder);
    let mut ticks = SystemTicks::new(&rt);
    let mut door = TcpDoor::new(&rt, PORT, Duration::from_secs(PATIENCE));
    let mut input = Input::new(rt.reader());
    let mut output = Output::new(io::writer(&rt));
    let status = run_pec(
        &rt,
        rt.alloc(),
        &words,
        &mut input,
        &mut output,
        &mut depot,
        &mut ticks,
        &mut door,
        screens,
        spares,
    );
    ExitCode::from(status.code())
}
