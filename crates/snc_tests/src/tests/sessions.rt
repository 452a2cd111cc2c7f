//! Runs by `session` with devices in memory that cut the bytes, fail at a call, take nothing, or are full.

ghost use Rattle.std.specs.Prelude.{◌<◌};

use crate::PROGRAM;
use crate::tests::{ERROR, REFUSED, WARNING, job};
use snc::{Status, session};
use snl_trace::{End, Feed, Sheet};
use std::alloc::Global;
use std::process::Abort;
use std::test::Fail;

/// A run: what goes in, what the devices do, what comes out, and how it ends.
#[derive(Clone, Copy)]
struct Row {
    program: &'static [u8],
    /// How many bytes a call gives or takes at most.
    most: usize,
    /// The call of the source that fails, from 1; 0 for none. So for the sink.
    source_fails: u64,
    sink_fails: u64,
    /// Whether that call of the sink takes nothing in the place of failing.
    takes_none: bool,
    /// For how many bytes the sink has room.
    room: usize,
    said: &'static [u8],
    text: &'static [u8],
    end: Option<End>,
    status: Status,
}

/// 33 bytes: a source that gives 7 at most gives them in five calls, and tells the end in the sixth.
const TRACE: &[u8] = b"0 up a\n0 up b\n0 val a 1\n5 val a 7";

const WELL: Row = Row {
    program: PROGRAM,
    most: 7,
    source_fails: 0,
    sink_fails: 0,
    takes_none: false,
    room: 100,
    said: WARNING,
    text: b"0 start p\n5 put b 14\n5 go s lo hi\n",
    end: Some(End::TraceEnded),
    status: Status::Well,
};

/// The last line has no newline, so that it counts where the trace ends, and not where it fails.
const SOURCE_FAILS: Row = Row {
    source_fails: 6,
    text: b"0 start p\n",
    end: Some(End::SourceFailed),
    status: Status::InputOutput,
    ..WELL
};

/// The first line takes two calls of the sink.
const SINK_FAILS: Row = Row {
    sink_fails: 2,
    text: b"0 start",
    end: Some(End::SinkFailed),
    status: Status::InputOutput,
    ..WELL
};

const ROWS: [Row; 10] = [
    WELL,
    Row { most: 1, ..WELL },
    Row { most: 40, ..WELL },
    SOURCE_FAILS,
    Row {
        source_fails: 1,
        text: b"",
        ..SOURCE_FAILS
    },
    // Nobody asks a seventh time.
    Row {
        source_fails: 7,
        ..WELL
    },
    SINK_FAILS,
    Row {
        sink_fails: 3,
        takes_none: true,
        text: b"0 start p\n",
        ..SINK_FAILS
    },
    // Room for the first line and one byte more.
    Row {
        sink_fails: 0,
        room: 11,
        text: b"0 start p\n5",
        ..SINK_FAILS
    },
    // With an error in the source neither of the two devices is touched.
    Row {
        program: REFUSED,
        source_fails: 1,
        sink_fails: 1,
        said: ERROR,
        text: b"",
        end: None,
        status: Status::SourceErrors,
        ..WELL
    },
];

impl Row {
    fn runs(&self, rt: &impl Abort, alloc: Global) -> Result<(), Fail>
        requires { 0 < self.now.most }
    {
        let job = job(alloc, false)?;
        let mut trace = Feed::new(TRACE, self.most);
        trace.fail(self.source_fails);
        let mut sheet = Sheet::new(alloc, self.room, self.most)?;
        sheet.refuse(self.sink_fails, self.takes_none);
        let (said, end, status) = session(alloc, self.program, &job, &mut trace, &mut sheet)?;
        assert_eq!(rt; said.as_slice(), self.said);
        assert_eq!(rt; sheet.text(), self.text);
        assert!(rt; end == self.end && status == self.status, "{end:?}");
        Ok(())
    }
}

#[test]
fn runs_with_each_device(rt: HostRuntime) -> Result<(), Fail> {
    for row in &ROWS {
        assert!(rt; 0 < row.most);
        row.runs(&rt, rt.alloc())?;
    }
    Ok(())
}
