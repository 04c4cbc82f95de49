//! Files, random words and clocks of the machine.

use edge_io::{
    Clock, Drawn, Entropy, Reading, RealClock, SampleClock, Source, Take, file_source, random_file,
};
use std::alloc::AllocError;
use std::io::{self, Read};
use std::os::fd::{AsRawFd, RawFd};
use std::rt::{self, Files};
use std::test::Fail;

/// Whether the next read gives these bytes.
fn gives<S: Source>(source: &mut S, want: &[u8]) -> bool {
    let mut buf = [0; 9];
    match source.read(&mut buf) {
        Take::Bytes(count) => buf.get(..count) == Some(want),
        _ => false,
    }
}

#[test]
fn files_as_sources(rt: HostRuntime) -> Result<(), Fail> {
    let mut system = file_source(&rt, "/proc/sys/kernel/ostype")?;
    let is_system = gives(&mut system, b"Linux\n");
    let end = system.read(&mut [0; 9]);
    let mut folder = file_source(&rt, "/")?;
    let failed = folder.read(&mut [0; 9]);
    let is_missing = file_source(&rt, "/proc/no/such/file").is_err();
    assert_eq!(rt; (is_system, is_missing), (true, true));
    assert_eq!(rt; [end, failed], [Take::End, Take::Failed]);
    Ok(())
}

/// Whether these are words that aren't all the same. Three random words are once in 2^64 runs.
fn are_random(drawn: [Drawn; 3]) -> bool {
    match drawn {
        [Drawn::Word(first), Drawn::Word(second), Drawn::Word(third)] => {
            first != second || second != third
        }
        _ => false,
    }
}

#[test]
fn words_of_the_machine(rt: HostRuntime) -> Result<(), Fail> {
    let mut machine = random_file(&rt)?;
    let drawn = [machine.word(), machine.word(), machine.word()];
    assert!(rt; are_random(drawn));
    Ok(())
}

#[test]
fn the_machines_own_clock(rt: HostRuntime) {
    let mut clock = RealClock::new(&rt);
    let Reading::At(first) = clock.now() else {
        assert!(rt; false, "the clock can't be had");
        return;
    };
    // From 2020 to 2200.
    assert!(rt; 132_223_104_000_000_000 < first && first < 189_000_000_000_000_000);
    clock.step(36_000_000_000);
    let Reading::At(second) = clock.now() else {
        assert!(rt; false, "the clock can't be had");
        return;
    };
    let hour = second.wrapping_sub(first);
    assert!(rt; 36_000_000_000 <= hour && hour < 36_600_000_000, "{hour}");
}

/// Whether the next reading is there.
fn is_read<R: rt::Clock + Files + Drop>(clock: &mut SampleClock<R>) -> bool {
    matches!(clock.now(), Reading::At(_))
}

/// Whether a correction is made, and the reading after it is there.
fn is_corrected<R: rt::Clock + Files + Drop>(clock: &mut SampleClock<R>) -> bool {
    clock.slew(1);
    is_read(clock)
}

/// A clock whose samples go to this descriptor.
fn clock_to<'a>(
    rt: &'a HostRuntime,
    fd: RawFd,
) -> Result<SampleClock<&'a HostRuntime>, AllocError> {
    let path = format!(in rt.alloc(); "/proc/self/fd/{fd}")?;
    Ok(SampleClock::new(rt, path))
}

/// Whether the next read gives one sample.
fn gives_a_sample<R: Read>(reader: &mut R) -> bool {
    matches!(reader.read(&mut [0; 80]), Ok(40))
}

#[test]
fn samples_to_a_pipe(rt: HostRuntime) -> Result<(), Fail> {
    let (mut reader, writer) = io::pipe(&rt)?;
    let mut clock = clock_to(&rt, writer.as_raw_fd())?;
    let mut late = clock_to(&rt, writer.as_raw_fd())?;
    let is_written = is_corrected(&mut clock) && gives_a_sample(&mut reader);
    // One whose reader goes, and one that never had a reader.
    drop(reader);
    let are_stopped = !is_corrected(&mut clock) && !is_corrected(&mut late);
    drop(writer);
    assert_eq!(rt; (is_written, are_stopped), (true, true));
    Ok(())
}
