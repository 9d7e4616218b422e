use crate::counted::Counted;
use crate::crowd::Seen;
use crate::failure::Failure;
use crate::load::Load;
use trial_kit::Latencies;

/// The bounds of the chart's rows, in microseconds.
const BOUNDS: [u64; 16] = [
    50, 100, 200, 500, 1_000, 2_000, 5_000, 10_000, 20_000, 50_000, 100_000, 200_000, 500_000,
    1_000_000, 2_000_000, 5_000_000,
];

/// The longest bar.
const BAR: &str = "##################################################";

/// Reports what the clients of a load saw.
pub fn print_report<R: Print>(rt: &R, load: &Load, seen: &Seen) -> Result<(), Failure> {
    let ticks = seen.latencies.len() as u64;
    let actions = ticks.saturating_mul(u64::from(load.lines));
    let time = seen.milliseconds;
    println!(rt;
        "{}, {} a batch, {}.{:03} s",
        counted(u64::from(load.connections), "connection"),
        counted(u64::from(load.lines), "line"),
        time / 1000,
        time % 1000
    )?;
    report_rate(rt, counted(ticks, "tick"), time)?;
    report_rate(rt, counted(actions, "action"), time)?;
    report_latencies(rt, &seen.latencies)?;
    report_chart(rt, &seen.latencies)
}

fn counted(count: u64, noun: &'static str) -> Counted {
    Counted { count, noun }
}

// Reports how many things there were, and how many a second.
fn report_rate<R: Print>(rt: &R, things: Counted, milliseconds: u64) -> Result<(), Failure> {
    println!(rt;
        "{things}, {} a second",
        per_second(things.count, milliseconds)
    )?;
    Ok(())
}

// How many things there were a second.
fn per_second(things: u64, milliseconds: u64) -> u64 {
    things
        .saturating_mul(1000)
        .checked_div(milliseconds)
        .unwrap_or(0)
}

fn report_latencies<R: Print>(rt: &R, latencies: &Latencies) -> Result<(), Failure> {
    print!(rt; "milliseconds:")?;
    for (name, latency) in [
        ("p50", latencies.of_thousandths(500)),
        ("p99", latencies.of_thousandths(990)),
        ("p99.9", latencies.of_thousandths(999)),
        ("max", latencies.greatest()),
    ] {
        let microseconds = latency / 1000;
        print!(rt;
            " {name} {}.{:03}",
            microseconds / 1000,
            microseconds % 1000
        )?;
    }
    println!(rt;)?;
    Ok(())
}

// A row for each bound, from that of the shortest latency to that of the longest one.
fn report_chart<R: Print>(rt: &R, latencies: &Latencies) -> Result<(), Failure> {
    let rows = rows_of(latencies);
    let most = rows.iter().copied().max().unwrap_or(0);
    let all = latencies.len();
    let mut left = all;
    for (bound, count) in BOUNDS.into_iter().zip(rows) {
        if count > 0 || (0 < left && left < all) {
            let (whole, hundredths) = (bound / 1000, bound % 1000 / 10);
            println!(rt;
                "up to {whole:>5}.{hundredths:02} ms {:<50} {count}",
                bar(count, most)
            )?;
        }
        left = left.saturating_sub(count);
    }
    if left > 0 {
        println!(rt; "longer            {:<50} {left}", bar(left, most))?;
    }
    Ok(())
}

// How many latencies are up to each bound and above the one before, and how many are
// above the last one.
fn rows_of(latencies: &Latencies) -> [usize; BOUNDS.len() + 1] {
    let mut rows = [0; BOUNDS.len() + 1];
    let mut before = 0;
    for (row, bound) in rows.iter_mut().zip(BOUNDS) {
        let below = latencies.up_to(bound.saturating_mul(1000));
        *row = below.saturating_sub(before);
        before = below;
    }
    rows[BOUNDS.len()] = latencies.len().saturating_sub(before);
    rows
}

// A bar for a count, as a share of the longest bar, which is for the greatest one.
fn bar(count: usize, most: usize) -> &'static str {
    let length = BAR
        .len()
        .saturating_mul(count)
        .checked_div(most)
        .unwrap_or(0);
    BAR.get(..length).unwrap_or(BAR)
}
