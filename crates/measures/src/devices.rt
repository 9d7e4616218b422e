use crate::logs::Log;
use crate::measuring::CELLS;
use crate::rounds::Rounds;
use action_log::GROUP_TICKS;
use anyhow::Error;
use capture_core::Capture;
use ping_pong::PingPong;
use zigzag::Zigzag;

/// How many cells are written before the round that is counted.
const WRITES: u32 = 1024;

/// Prints the calls on the files of a log and of images.
pub fn report_devices<R: Print + AllocGlobal>(rt: &R) -> Result<(), Error> {
    let mut log = Log::new(rt.alloc())?;
    report_log(rt, &mut log)?;
    report_round::<R, Zigzag>(rt, "zigzag")?;
    report_round::<R, PingPong>(rt, "pingpong")
}

fn report_log<R: Print + AllocGlobal>(rt: &R, log: &mut Log) -> Result<(), Error> {
    log.write()?;
    println!(rt; "start of a log: {}", log.take_calls())?;
    report_group(rt, log, 1)?;
    report_group(rt, log, 8)?;
    report_group(rt, log, GROUP_TICKS)?;
    report_switch(rt, log, "a closed")?;
    report_switch(rt, log, "an open")
}

// Writes a group of so many ticks of four actions, and prints its calls.
fn report_group<R: Print + AllocGlobal>(rt: &R, log: &mut Log, ticks: usize) -> Result<(), Error> {
    log.push_group(rt.alloc(), ticks)?;
    log.write()?;
    println!(rt; "group of {ticks}: {}", log.take_calls())?;
    Ok(())
}

fn report_switch<R: Print>(rt: &R, log: &mut Log, segment: &str) -> Result<(), Error> {
    log.switch()?;
    log.write()?;
    println!(rt; "switch into {segment} segment: {}", log.take_calls())?;
    Ok(())
}

fn report_round<R: Print + AllocGlobal, C: Capture>(rt: &R, method: &str) -> Result<(), Error> {
    let mut rounds = Rounds::<C>::new(rt.alloc(), CELLS as u32)?;
    report_third_round(rt, method, &mut rounds)
}

// Counts the third round. Both files have an image by then, and the newest one has the words of the
// cells that weren't written since.
fn report_third_round<R: Print, C: Capture>(
    rt: &R,
    method: &str,
    rounds: &mut Rounds<C>,
) -> Result<(), Error> {
    let mut number = 1;
    for _ in 0..3 {
        rounds.take_calls();
        number = rounds.play(number, WRITES);
        rounds.begin()?;
        rounds.write()?;
    }
    println!(rt; "image round of {method}: {}", rounds.take_calls())?;
    Ok(())
}
