use crate::checks::holds_with;
use crate::streams::{Failure, read_failure};
use ciborium_ll::io::{KeepingReader, Read};
use std::io;
use test_support::streams::PartReader;

// Reads at most eight bytes, and compares whether the read succeeds, the bytes that it gives, and those then held.
fn reads_so<'a>(
    reader: &mut KeepingReader<'a, PartReader<'a>>,
    size: usize,
    gives: Option<&[u8]>,
    held: &[u8],
) -> bool {
    let mut space = [0; 8];
    let data = &mut space[..size.min(8)];
    let has_read = reader.read_exact(data).is_ok();
    let is_right = match gives {
        Some(bytes) => has_read && *data == *bytes,
        None => !has_read,
    };
    is_right && reader.buffer() == held
}

// A read: its size, the bytes that it gives, unless it fails, and those that are held after it.
type Call = (usize, Option<&'static [u8]>, &'static [u8]);

// How many bytes are lent, the reads, how many calls they take, the bytes then left, and the failure that is kept.
type Reads = (usize, &'static [Call], usize, &'static [u8], Failure);

// The source has the bytes 1 to 6, and gives at most two of them a call. Its fourth call fails.
static READS: [Reads; 4] = [
    (4, &[], 0, &[1, 2, 3, 4, 5, 6], Failure::Never),
    (
        4,
        &[
            (1, Some(&[1]), &[2]),
            (0, Some(&[]), &[2]),
            (3, Some(&[2, 3, 4]), &[]),
        ],
        2,
        &[5, 6],
        Failure::Never,
    ),
    // The call that fails comes after the bytes 5 and 6. Smaller reads get these, and make no call.
    (
        4,
        &[
            (4, Some(&[1, 2, 3, 4]), &[]),
            (3, None, &[5, 6]),
            (1, Some(&[5]), &[6]),
            (2, None, &[6]),
            (1, Some(&[6]), &[]),
            (1, None, &[]),
        ],
        4,
        &[],
        Failure::Failed(io::ErrorKind::Interrupted),
    ),
    // The slice has no room for a third byte, so a call gives none.
    (
        2,
        &[(3, None, &[1, 2]), (2, Some(&[1, 2]), &[]), (1, None, &[])],
        2,
        &[3, 4, 5, 6],
        Failure::Stopped,
    ),
];

#[test]
fn keeps_what_came(rt: HostRuntime) {
    for (room, calls, count, left, failure) in &READS {
        let mut lent = [0; 4];
        let source = PartReader::new(&[1, 2, 3, 4, 5, 6], 2);
        let source = source.failing_at(4, io::ErrorKind::Interrupted);
        let mut reader = KeepingReader::new(source, &mut lent[..(*room).min(4)]);
        let mut are_right = reader.buffer().is_empty();
        for (size, gives, held) in *calls {
            are_right = reads_so(&mut reader, *size, *gives, held) && are_right;
        }
        let (source, _, fault) = reader.into_parts();
        let are_kept = source.calls == *count && source.left == *left;
        let is_right = are_right && are_kept && read_failure(fault) == *failure;
        holds_with(&rt, is_right, &[*room, calls.len(), *count]);
    }
}
