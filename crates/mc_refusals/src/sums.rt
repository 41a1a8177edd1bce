//! Checksums of values, by the texts that show them. They take no memory.
use std::fmt::{self, Debug, Write};

// A writer that keeps only a checksum of what it is given.
#[derive(Drop)]
struct Sum {
    value: u64,
}

impl Write for Sum {
    fn write_str(&mut self, s: &str) -> fmt::Result {
        for byte in s.as_bytes() {
            self.value = mixed(self.value, u64::from(*byte));
        }
        Ok(())
    }
}

/// Returns the checksum of what a sum stands for, and then this number.
pub(crate) fn mixed(sum: u64, number: u64) -> u64 {
    (sum ^ number).wrapping_mul(1_099_511_628_211)
}

/// Returns the checksum of a value.
pub(crate) fn sum_of<T: Debug>(value: &T) -> u64 {
    let mut sum = Sum { value: 0 };
    let _ = sum.write(format_args!("{value:?}"));
    sum.value
}
