//! How many puts went to each channel, and what was put last.

use std::alloc::{AllocError, Global};

/// What is known of the puts to a channel.
#[derive(Drop)]
struct Channel {
    /// How many there were.
    puts: u64,
    /// The values of the last one.
    last: Vec<i64>,
}

/// What is known of the puts of a run, by the numbers of the channels.
#[derive(Drop)]
pub(crate) struct Sums {
    alloc: Global,
    channels: Vec<Channel>,
    puts: u64,
    /// Whether memory was refused.
    ran_out: bool,
}

impl Sums {
    /// There was none to any channel.
    pub(crate) fn new(alloc: Global) -> Self {
        Sums {
            alloc,
            channels: Vec::new(alloc),
            puts: 0,
            ran_out: false,
        }
    }

    /// Makes room for a channel and those of lower numbers.
    fn reach(&mut self, channel: usize) -> Result<(), AllocError> {
        for _new in self.channels.len()..channel.saturating_add(1) {
            self.channels.push(Channel {
                puts: 0,
                last: Vec::new(self.alloc),
            })?;
        }
        Ok(())
    }

    /// Adds a put to a channel.
    fn add(&mut self, channel: usize, values: &[i64]) -> Result<(), AllocError> {
        self.reach(channel)?;
        let Some(sum) = self.channels.get_mut(channel) else {
            return Ok(());
        };
        sum.puts = sum.puts.saturating_add(1);
        sum.last.clear();
        sum.last.extend_from_slice(values)
    }

    /// Counts a put to a channel.
    pub(crate) fn count(&mut self, channel: usize, values: &[i64]) {
        self.puts = self.puts.saturating_add(1);
        if self.add(channel, values).is_err() {
            self.ran_out = true;
        }
    }

    /// How many puts there were.
    pub(crate) fn puts(&self) -> u64 {
        self.puts
    }

    /// How many went to a channel, and the values of the last one.
    pub(crate) fn puts_to(&self, channel: usize) -> (u64, &[i64]) {
        match self.channels.get(channel) {
            Some(sum) => (sum.puts, sum.last.as_slice()),
            None => (0, &[]),
        }
    }

    /// Whether something is missing, since memory was refused.
    pub(crate) fn ran_out(&self) -> bool {
        self.ran_out
    }
}
