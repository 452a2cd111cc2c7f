//! Calls of a machine: its names, lines of a trace, events, a run, and the way back to a snapshot.

ghost use Rattle.std.specs.Prelude.{◌≡◌, ◌<◌};

use crate::PROGRAM;
use crate::tests::made::loaded;
use arrayvec::ArrayVec;
use snl_machine::{Event, Live, Machine, Steps};
use snl_trace::{End, Feed, Sheet, TraceFault, read_line, run};
use std::alloc::Global;
use std::marker::Brand;
use std::process::Abort;
use std::sync::ledger::{Blank, Ledger};
use std::test::Fail;

/// Two state sets with a delay, a flag, a queue of two items, and a put that waits for its answer.
const SEVERAL: &[u8] = b"program u
option +s;
int x; assign x to \"a\"; monitor x;
evflag f; syncQ x to f 2;
int y; assign y to \"b\"; monitor y;
ss s { state w {
when (delay(1.0) && pvGetQ(x)) { printf(\"%d\", x); y = x; pvPut(y, ASYNC); } state w
} }
ss t { state v {
when (delay(2.0)) { printf(\"%d %d\", y, efTest(f)); } state v
} }
";

const FIRST: &[u8] = b"0 up a
0 up b
0 val a 1
10 val b 7
20 val a 2
";

const THEN: &[u8] = b"1500 val a 3
1600 val b 8
2500 done b
3500 tick
";

/// What these lines make the machine tell. The second put is refused, since the first is not answered yet.
const TOLD: &[u8] = b"1010 print s 1
1010 put b 1
1010 go s w w
2010 print s 2
2010 go s w w
2010 print t 8 1
2010 go t v v
3010 print s 3
3010 put b 3
3010 go s w w
";

#[test]
fn calls_of_a_machine(rt: HostRuntime) -> Result<(), Fail> {
    let mut machine = loaded(rt.alloc(), PROGRAM)?;
    calls::<Brand, _>(&rt, rt.alloc(), &mut machine, Blank::new(1))
}

fn calls<L: Ledger, A: Abort>(
    rt: &A,
    alloc: Global,
    machine: &mut Machine,
    blank: Blank,
) -> Result<(), Fail>
    requires name { blank.name ≡ L.name }
    requires parts { blank.parts ≡ L.parts }
    requires some { 0 < L.parts }
{
    names(rt, machine);
    lines(rt, machine)?;
    ends(rt, alloc, machine, b"3 up a\n4 up b\n", End::TraceEnded)?;
    let mut steps = Steps::<L>::new(blank);
    starts(rt, alloc, machine, &mut steps)?;
    let end = End::TraceFault(2, TraceFault::BackInTime);
    ends(rt, alloc, machine, b"6 tick\n5 tick\n", end)?;
    assert!(rt; machine.time() == 6 && machine.footprint() == 21);
    Ok(())
}

/// Channels have the numbers from 0 on, and so have links: each has a word of the copy where its elements begin.
fn names<A: Abort>(rt: &A, machine: &Machine) {
    assert_eq!(rt; machine.footprint(), 21);
    assert_eq!(rt; machine.channel(b"b"), Some(1));
    assert_eq!(rt; machine.channel(b"c"), None);
    assert!(rt; machine.is_channel(1, b"b") && !machine.is_channel(0, b"b"));
    assert_eq!(rt; machine.home(0, 1), Some(1));
    assert!(rt; machine.home(0, 2).is_none() && machine.home(1, 0).is_none());
    assert!(rt; machine.fits(&Event::Done(1)) && !machine.fits(&Event::Done(2)));
}

/// A line without an event, one with a fault, and one with values, all of which are kept.
fn lines<A: Abort>(rt: &A, machine: &Machine) -> Result<(), Fail> {
    assert!(rt; matches!(read_line(b"# 4", machine, 5), Ok(None)));
    let fault = read_line(b"4 tock", machine, 5).err();
    assert_eq!(rt; fault, Some(TraceFault::BackInTime));
    let (ms, event) = read_line(b"6 val a 1 2147483648", machine, 5)?.ok_or("no event")?;
    let Event::Val(0, values) = event else {
        return Err("no values of the channel".into());
    };
    assert!(rt; ms == 6 && values.as_slice() == [1i64, 2_147_483_648].as_slice());
    Ok(())
}

/// A run over a trace ends so.
fn ends<A: Abort>(
    rt: &A,
    alloc: Global,
    machine: &mut Machine,
    lines: &[u8],
    end: End,
) -> Result<(), Fail> {
    let mut sheet = Sheet::new(alloc, 100, 3)?;
    let mut trace = Feed::new(lines, 4);
    assert_eq!(rt; run(machine, &mut trace, &mut sheet), end);
    Ok(())
}

/// The program starts with the value of its channel.
fn starts<L: Ledger, A: Abort>(
    rt: &A,
    alloc: Global,
    machine: &mut Machine,
    steps: &mut Steps<L>,
) -> Result<(), Fail> {
    let mut sheet = Sheet::new(alloc, 100, 3)?;
    let mut values = ArrayVec::new();
    values.push(4);
    let live = machine.event(5, &Event::Val(0, values), &mut sheet, steps)?;
    assert!(rt; live == Live::Running && machine.time() == 5);
    assert_eq!(rt;
        sheet.text(),
        b"5 start p\n5 put b 8\n5 go s lo hi\n".as_slice()
    );
    Ok(())
}

#[test]
fn back_to_a_snapshot(rt: HostRuntime) -> Result<(), Fail> {
    let mut machine = loaded(rt.alloc(), SEVERAL)?;
    there_and_back(&rt, rt.alloc(), &mut machine)
}

/// From where the machine is taken back to, it goes the same way again.
fn there_and_back<A: Abort>(rt: &A, alloc: Global, machine: &mut Machine) -> Result<(), Fail> {
    ends(rt, alloc, machine, FIRST, End::TraceEnded)?;
    let here = machine.snapshot(alloc)?;
    tells(rt, alloc, machine)?;
    let there = machine.snapshot(alloc)?;
    assert!(rt; !here.is_same(&there) && here != there);
    machine.restore(&here);
    assert!(rt; machine.time() == 20);
    tells(rt, alloc, machine)?;
    let again = machine.snapshot(alloc)?;
    assert!(rt; again.is_same(&there));
    Ok(())
}

/// What the lines behind the snapshot make the machine tell.
fn tells<A: Abort>(rt: &A, alloc: Global, machine: &mut Machine) -> Result<(), Fail> {
    let mut sheet = Sheet::new(alloc, 300, 3)?;
    let mut trace = Feed::new(THEN, 4);
    let _end = run(machine, &mut trace, &mut sheet);
    assert_eq!(rt; sheet.text(), TOLD);
    Ok(())
}
