// Samples in windows of a second, three of which are kept.
ghost use Rattle.std.specs.Prelude.{◌≡◌};
ghost use Rattle.plan_terms.specs.Loads.{IsLoads};

use metric_windows::{SampleFault, Windows};
use plan_terms::Loads;
use std::process::Abort;

fn loads(n: u16) -> Loads
    ensures { IsLoads result }
{
    let n = u64::from(n);
    Loads {
        lead: [n, n + 1, n + 2, n + 3],
        follow: [n, n, 0, n + 4],
    }
}

#[derive(Clone, Copy)]
struct Turn {
    part: u32,
    time: u64,
    n: u16,
    want: Result<(), SampleFault>,
}

fn taken(part: u32, time: u64, n: u16, want: Result<(), SampleFault>) -> Turn {
    Turn {
        part,
        time,
        n,
        want,
    }
}

fn add_all(rt: &impl Abort, windows: &mut Windows, parts: u32, turns: &[Turn])
    requires { windows.old.parts ≡ parts }
    ensures { windows.new.parts ≡ parts }
{
    for turn in turns {
        assert!(rt; turn.part < parts);
        let got = windows.add(turn.part, turn.time, loads(turn.n));
        assert_eq!(rt; got, turn.want, "at {}", turn.time);
    }
}

fn numbers(load: Option<Loads>) -> Option<([u64; 4], [u64; 4])> {
    let load = load?;
    let lead = load.lead;
    let follow = load.follow;
    Some((lead, follow))
}

fn last(load: Option<Loads>) -> Option<u64> {
    let lead = load?.lead;
    Some(lead[3])
}

#[test]
fn one_sample_is_half_of_two(rt: HostRuntime) {
    let windows = Windows::new(rt.alloc(), 1, 1000, 3, 2, 1);
    let mut windows = windows.expect(&rt, "memory");
    let turns = [
        taken(0, 100, 7, Ok(())),
        taken(0, 200, 17, Ok(())),
        taken(0, 1100, 28, Ok(())),
    ];
    add_all(&rt, &mut windows, 1, &turns);
    // DISK was 10, 20 and 31.
    assert_eq!(rt; last(windows.load_of(0)), Some(23));
    add_all(&rt, &mut windows, 1, &[taken(0, 4000, 37, Ok(()))]);
    assert_eq!(rt; last(windows.load_of(0)), Some(40));
    add_all(
        &rt,
        &mut windows,
        1,
        &[taken(0, 1900, 1, Err(SampleFault::TooOld(2)))],
    );
    assert_eq!(rt; last(windows.load_of(0)), Some(40));
}

#[test]
fn averages_three_samples_and_two_windows(rt: HostRuntime) {
    let windows = Windows::new(rt.alloc(), 3, 1000, 3, 3, 2);
    let mut windows = windows.expect(&rt, "memory");
    assert_eq!(rt; windows.coverage(), (0, 3));

    let turns = [
        taken(0, 0, 10, Ok(())),
        taken(0, 500, 11, Ok(())),
        taken(0, 999, 13, Ok(())),
        taken(0, 1000, 5, Ok(())),
        taken(0, 2000, 20, Ok(())),
        taken(0, 2001, 20, Ok(())),
        taken(0, 2002, 21, Ok(())),
        taken(1, 1000, 7, Ok(())),
        taken(1, 1001, 8, Ok(())),
        taken(1, 2000, 9, Ok(())),
    ];
    add_all(&rt, &mut windows, 3, &turns);
    // The values are 11, 14 by all three windows, and 20.
    assert_eq!(rt;
        numbers(windows.load_of(0)),
        Some(([15, 16, 17, 18], [15, 15, 0, 19]))
    );
    // Two samples make a value, one doesn't.
    assert_eq!(rt; numbers(windows.load_of(1)), None);
    assert_eq!(rt; windows.coverage(), (1, 3));

    let turns = [
        taken(1, 5500, 1, Ok(())),
        taken(0, 2999, 1, Err(SampleFault::TooOld(3))),
        taken(0, 3000, 100, Ok(())),
        taken(0, 3001, 100, Ok(())),
        taken(0, 4000, 101, Ok(())),
        taken(0, 4001, 102, Ok(())),
    ];
    add_all(&rt, &mut windows, 3, &turns);
    assert_eq!(rt;
        numbers(windows.load_of(0)),
        Some(([100, 101, 102, 103], [100, 100, 0, 104]))
    );
    assert_eq!(rt; numbers(windows.load_of(1)), None);
    assert_eq!(rt; windows.coverage(), (1, 3));
}
