use std::alloc::Global;
use std::test::Fail;
use trial_kit::Latencies;

// The latencies of 1 microsecond up to this many, the longest first.
fn microseconds(alloc: Global, most: u64) -> Result<Latencies, Fail> {
    let mut list = Vec::new(alloc);
    for shorter in 0..most {
        list.push(most.saturating_sub(shorter).saturating_mul(1000))?;
    }
    Ok(Latencies::new(list))
}

#[test]
fn latencies_of_a_thousand(rt: HostRuntime) -> Result<(), Fail> {
    let latencies = microseconds(rt.alloc(), 1000)?;
    for (thousandths, microseconds) in [(1, 1), (500, 500), (990, 990), (999, 999), (1000, 1000)] {
        assert_eq!(rt; latencies.of_thousandths(thousandths), microseconds * 1000);
    }
    for (bound, count) in [(999, 0), (1000, 1), (50_500, 50)] {
        assert_eq!(rt; latencies.up_to(bound), count);
    }
    Ok(())
}

#[test]
fn no_latencies(rt: HostRuntime) {
    let none = Latencies::new(Vec::new(rt.alloc()));
    assert_eq!(rt;
        (none.of_thousandths(999), none.up_to(9), none.len()),
        (0, 0, 0)
    );
}
