//! Times one operation of the code for `bench/encode`, and for `bench/lib`. The words are the
//! operation (`encode`, `into`, `fresh`, `solve`, `check`, `word`, `compare` or `examine`), k, r and
//! how many slices are timed. It prints the least time of a call in nanoseconds, over that many
//! slices of four calls each, or 0 where no slice is asked for.
#![tactic(auto)]

mod in_place;

ghost use Rattle.std.specs.Prelude.{◌≡◌, ◌+◌, length, IfOk};
ghost use Rattle.cb_gf256.specs.InRange.{IsInRange};
ghost use Rattle.cb_gf256.specs.Positions.{ArePositions};

use crate::in_place::{encode_block, has_parities, is_word, varied_block};
use cb_code::{coefficients, encode, syndromes_zero};
use cb_erase::solve;
use cb_gf256::{NoMemory, Rows};
use cb_scrub::{Found, examine};
use std::alloc::Global;
use std::process::ExitCode;
use std::rt::Env;
use std::time::Instant;
use std::{env, io};

const ROW_BYTES: u32 = 4096;

const CALLS_IN_A_SLICE: u64 = 4;

/// What is timed.
#[derive(Clone, Copy)]
enum Operation {
    /// Parities of k data rows.
    Encode,
    /// The same in rows that are there: no memory is taken.
    Into,
    /// The same by a table that is made for this call.
    Fresh,
    /// The word of the last k rows: r data rows are lost.
    Solve,
    /// The test of a code word.
    Check,
    /// The same by all syndromes in one pass, where the rows lie.
    Word,
    /// The same by parities that are made again in rows that are there, and compared.
    Compare,
    /// The examination of a code word.
    Examine,
}

/// The next number of a sequence that looks random (Marsaglia 2003).
fn next_drawn(seed: u64) -> u64 {
    let a = seed ^ (seed << 13);
    let b = a ^ (a >> 7);
    b ^ (b << 17)
}

/// Fills a row with bytes that vary, and answers where the sequence goes on.
fn fill(row: &mut [u8], first: u64) -> u64 {
    let mut seed = first;
    for byte in row {
        seed = next_drawn(seed);
        *byte = (seed >> 56) as u8;
    }
    seed
}

/// Rows of bytes that vary.
fn varied_rows(alloc: Global, count: u32) -> Result<Rows, NoMemory>
    ensures { IfOk result (λ rows. length rows ≡ count) }
{
    let mut rows = Rows::new(alloc, count, ROW_BYTES)?;
    let mut seed = 88_172_645_463_325_252u64;
    for i in 0..count {
        seed = fill(rows.row_mut(i), seed);
    }
    Ok(rows)
}

/// All positions of the longest code.
static POSITIONS: [u8; 20] = [
    0, 1, 2, 3, 4, 5, 6, 7, 8, 9, 10, 11, 12, 13, 14, 15, 16, 17, 18, 19,
];

/// The last k positions.
fn last_positions(k: u32, r: u32) -> &'static [u8]
    requires { IsInRange k r }
    ensures { ArePositions (k + r) k result.now }
{
    let all = POSITIONS.as_slice();
    &all[r as usize..(k + r) as usize]
}

fn out_of_memory() -> io::Error {
    io::Error::from(io::ErrorKind::OutOfMemory)
}

/// The time of a call of a slice that began then, or what was the least before.
fn least_of(rt: &HostRuntime, start: &Instant, before: u64) -> io::Result<u64> {
    let nanoseconds = u64::try_from(start.elapsed(rt)?.as_nanos()).unwrap_or(u64::MAX);
    Ok(before.min(nanoseconds / CALLS_IN_A_SLICE))
}

/// The least time in nanoseconds of a call on rows that are there. Each call's answer is counted, so
/// that no call can be left out.
fn least_time_in_place(
    rt: &HostRuntime,
    operation: Operation,
    k: u32,
    r: u32,
    slices: u32,
) -> io::Result<u64>
    requires { IsInRange k r }
{
    let Ok(mut block) = varied_block(rt.alloc(), k + r) else {
        return Err(out_of_memory());
    };
    let Ok(mut room) = varied_block(rt.alloc(), r) else {
        return Err(out_of_memory());
    };
    let code = coefficients(k, r);
    let mut answers = u64::from(encode_block(&code, k, block.as_mut_slice()));
    let mut least = u64::MAX;
    for _ in 0..slices {
        let start = Instant::now(rt)?;
        for _ in 0..CALLS_IN_A_SLICE {
            let answered = match operation {
                Operation::Word => is_word(k, r, block.as_slice()),
                Operation::Compare => {
                    has_parities(&code, k, block.as_slice(), room.as_mut_slice())
                }
                _ => encode_block(&code, k, block.as_mut_slice()),
            };
            answers = answers.wrapping_add(u64::from(answered));
        }
        least = least_of(rt, &start, least)?;
    }
    if slices == 0 || answers != 1 + CALLS_IN_A_SLICE * u64::from(slices) {
        return Ok(0);
    }
    Ok(least)
}

/// The least time of a call in nanoseconds. Each call's answer is counted, so that no call can be
/// left out.
fn least_time(
    rt: &HostRuntime,
    operation: Operation,
    k: u32,
    r: u32,
    slices: u32,
) -> io::Result<u64>
    requires { IsInRange k r }
{
    let alloc = rt.alloc();
    let Ok(given) = varied_rows(alloc, k) else {
        return Err(out_of_memory());
    };
    let Ok(broken) = varied_rows(alloc, k + r) else {
        return Err(out_of_memory());
    };
    let code = coefficients(k, r);
    let present = last_positions(k, r);
    let Ok(word) = solve(alloc, k, r, &broken, present) else {
        return Err(out_of_memory());
    };
    let mut least = u64::MAX;
    let mut answers = 0u64;
    for _ in 0..slices {
        let start = Instant::now(rt)?;
        for _ in 0..CALLS_IN_A_SLICE {
            let answered = match operation {
                Operation::Encode => encode(alloc, &code, &given).is_ok(),
                Operation::Fresh => encode(alloc, &coefficients(k, r), &given).is_ok(),
                Operation::Solve => solve(alloc, k, r, &broken, present).is_ok(),
                Operation::Check => syndromes_zero(r, &word),
                _ => matches!(examine(r, &word), Found::Clean),
            };
            answers = answers.wrapping_add(u64::from(answered));
        }
        least = least_of(rt, &start, least)?;
    }
    if slices == 0 || answers == 0 {
        return Ok(0);
    }
    Ok(least)
}

/// The operation that a word names.
fn operation_of(word: &str) -> Option<Operation> {
    match word {
        "encode" => Some(Operation::Encode),
        "into" => Some(Operation::Into),
        "fresh" => Some(Operation::Fresh),
        "solve" => Some(Operation::Solve),
        "check" => Some(Operation::Check),
        "word" => Some(Operation::Word),
        "compare" => Some(Operation::Compare),
        "examine" => Some(Operation::Examine),
        _ => None,
    }
}

/// The word at a place of the command line, as a number.
fn number_at<R: Env + AllocGlobal>(rt: &R, place: usize) -> io::Result<u32> {
    match env::args(rt)?.nth(place) {
        Some(word) => Ok(word.as_str().parse::<u32>().unwrap_or(0)),
        None => Ok(0),
    }
}

fn main(rt: HostRuntime) -> io::Result<ExitCode> {
    let operation = match env::args(&rt)?.nth(1) {
        Some(word) => operation_of(word.as_str()),
        None => None,
    };
    let k = number_at(&rt, 2)?;
    let r = number_at(&rt, 3)?;
    let slices = number_at(&rt, 4)?;
    let Some(operation) = operation else {
        return Ok(ExitCode::FAILURE);
    };
    if k < 1 || k > 16 || r < 1 || r > 4 {
        return Ok(ExitCode::FAILURE);
    }
    let least = match operation {
        Operation::Into | Operation::Word | Operation::Compare => {
            least_time_in_place(&rt, operation, k, r, slices)?
        }
        _ => least_time(&rt, operation, k, r, slices)?,
    };
    println!(rt; "{least}")?;
    Ok(ExitCode::SUCCESS)
}
