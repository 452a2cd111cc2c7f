//! What `report` says of a source, and its tables where they are asked for.

use crate::PROGRAM;
use crate::tests::{ERROR, REFUSED, WARNING, job};
use snc::{Status, report};
use std::alloc::Global;
use std::process::Abort;
use std::test::Fail;

/// A source, and whether its tables are asked for; what is said of it, its tables, and the status.
struct Row {
    source: &'static [u8],
    tables: bool,
    said: &'static [u8],
    text: &'static [u8],
    status: Status,
}

const TABLES: &[u8] = b"program p
channel x 0 1 \"a\" monitor - 0
channel y 0 1 \"b\" - - 0
ss s
state lo +t+e+x
when 1 state hi
state hi +t+e+x
";

const ROWS: [Row; 3] = [
    Row {
        source: PROGRAM,
        tables: false,
        said: WARNING,
        text: b"",
        status: Status::Well,
    },
    Row {
        source: PROGRAM,
        tables: true,
        said: WARNING,
        text: TABLES,
        status: Status::Well,
    },
    Row {
        source: REFUSED,
        tables: true,
        said: ERROR,
        text: b"",
        status: Status::SourceErrors,
    },
];

impl Row {
    fn is_reported(&self, rt: &impl Abort, alloc: Global) -> Result<(), Fail> {
        let job = job(alloc, self.tables)?;
        let report = report(alloc, self.source, &job)?;
        assert_eq!(rt; report.messages.as_slice(), self.said);
        assert_eq!(rt; report.tables.as_slice(), self.text);
        assert_eq!(rt; report.status, self.status);
        Ok(())
    }
}

#[test]
fn messages_and_tables(rt: HostRuntime) -> Result<(), Fail> {
    for row in &ROWS {
        row.is_reported(&rt, rt.alloc())?;
    }
    Ok(())
}
