//! The machine's clock, whose corrections chronyd makes.
ghost use Rattle.std.specs.Prelude.{◌≡◌, ◌<◌, ◌^◌, ℕ, [], ◌∷◌, IfSome, IsTrue, None, Option};
ghost use Rattle.base_specs.specs.Told.{Grew};
ghost use Rattle.edge_io.specs.SampleClock.{AddsSample, ReadsMachine, TakesSample};
ghost use Rattle.edge_io.specs.declared.sample_clock.Samples.TheVariants.{Unopened};
ghost use Rattle.edge_traits.specs.Clock.{Correct, ReadingCounts, Reads};

use crate::correction::reading_of;
use crate::real_clock::{machine_ticks, since_1970};
use crate::sample::sample_of;
use crate::writer::write_again;
use edge_traits::{Clock, Move, Reading};
use std::fs::OpenOptions;
use std::io::{self, Write};
use std::marker::Model;
use std::rt::{self, Files};
use std::time::Duration;

/// The machine's clock, without corrections of our own: each is written as a sample for chronyd, which corrects it.
///
/// The path is that of a pipe, whose reader hands each sample to the socket of chronyd's reference clock driver SOCK, or of
/// a file. It is opened with the first correction, and not created. A sample is 40 bytes in one write, at the end of
/// a file. It tells nothing.
///
/// A correction can't fail, so a sample that could not be written shows at the readings: each that follows fails. So it is
/// where the path is missing or a folder, where nobody reads the pipe any more, where a write takes only a part, and where
/// the machine's clock can't be had for the moment of the sample. A pipe that is full waits for its reader. Else a reading
/// fails as that of a [`RealClock`](crate::RealClock).
#[derive(Drop)]
pub struct SampleClock<R: rt::Clock + Files + Drop> {
    rt: R,
    path: String,
    samples: Samples<R::File>,
    faults: u64,
}

/// Where the samples go.
#[derive(Drop)]
enum Samples<F> {
    /// There was no correction yet.
    Unopened,
    /// To this file.
    Open(F),
    /// Nowhere any more: one could not be written.
    Stopped,
}

impl<R: rt::Clock + Files + Drop> Model for SampleClock<R> {
    ghost use Rattle.edge_io.specs.SampleClock.{SampledClock};

    ghost Value = { SampledClock R.File };

    ghost view = { λ c. record { samples = c.samples; faults = c.faults } };
}

impl<R: rt::Clock + Files + Drop> SampleClock<R> {
    /// The clock of this runtime, with the path of its samples.
    pub fn new(rt: R, path: String) -> SampleClock<R>
        ensures clock { result ≡ record { samples = Unopened; faults = 0 } }
        ensures told { ⟦<SampleClock<R> as Clock>⟧.told result ≡ None }
        ensures faults { ⟦<SampleClock<R> as Clock>⟧.faults result ≡ 0 }
    {
        SampleClock {
            rt,
            path,
            samples: Samples::Unopened,
            faults: 0,
        }
    }

    /// The reading, where the machine's clock reads so many ticks or can't be had.
    fn read_at(&mut self, machine: Option<u128>) -> Reading
        requires { IfSome machine (λ ticks. ticks < 2 ^ 100) }
        ensures gives { Reads result None None }
        ensures cause { ReadingCounts result self.old.faults self.new.faults }
        ensures machine { ReadsMachine machine result self.old self.new }
    {
        if let Some(machine) = machine
            && !matches!(self.samples, Samples::Stopped)
            && let Some(moment) = reading_of(machine as i128)
        {
            return Reading::At(moment);
        }
        self.faults = self.faults.saturating_add(1);
        Reading::Failed
    }

    /// Writes the sample of an offset, or stops.
    fn put(&mut self, offset: i64)
        ensures sample { TakesSample offset R.File.contents self.old.samples self.new.samples }
        ensures same { self.new.faults ≡ self.old.faults }
    {
        let moment = since_1970(&self.rt);
        if let Samples::Unopened = self.samples {
            self.samples = match open_late(&self.rt, &self.path) {
                Ok(file) => Samples::Open(file),
                Err(_) => Samples::Stopped,
            };
        }
        if let Samples::Open(file) = &mut self.samples
            && let Some(moment) = moment
            && put_sample(file, moment, offset)
        {
            return;
        }
        self.samples = Samples::Stopped;
    }
}

impl<R: rt::Clock + Files + Drop> Clock for SampleClock<R> {
    ghost use Rattle.std.specs.Prelude.{None};

    ghost told = { λ _. None };

    ghost faults = { λ c. c.faults };

    fn now(&mut self) -> Reading
        ensures gives { Reads result None None }
        ensures cause { ReadingCounts result self.old.faults self.new.faults }
        ensures machine { (machine : Option ℕ) × ReadsMachine machine result self.old self.new }
    {
        let machine = machine_ticks(&self.rt);
        self.read_at(machine)
    }

    fn step(&mut self, amount: i64)
        ensures moves { Grew None None (Correct (Move.Step amount) ∷ []) }
        ensures cause { self.new.faults ≡ self.old.faults }
        ensures sample { TakesSample amount R.File.contents self.old.samples self.new.samples }
    {
        self.put(amount);
    }

    fn slew(&mut self, amount: i64)
        ensures moves { Grew None None (Correct (Move.Slew amount) ∷ []) }
        ensures cause { self.new.faults ≡ self.old.faults }
        ensures sample { TakesSample amount R.File.contents self.old.samples self.new.samples }
    {
        self.put(amount);
    }
}

/// Opens what stands at the path, to write at its end.
///
/// To open a pipe for writing waits for its reader. To open it for both waits for nothing on Linux, and counts as a reader
/// as long as it is open, which is here. Then a write to a pipe that nobody reads fails.
fn open_late<R: Files>(files: &R, path: &str) -> io::Result<R::File> {
    let _both = OpenOptions::new().read(true).write(true).open(files, path)?;
    OpenOptions::new().append(true).open(files, path)
}

/// Writes the sample of an offset that was measured so long after the start of 1970, in one write, and says whether all of
/// it was taken.
fn put_sample<W: Write>(writer: &mut W, since_1970: Duration, offset: i64) -> bool
    ensures sample { IsTrue result
        → AddsSample offset (W.contents writer.old) (W.contents writer.new) }
{
    let sample = sample_of(since_1970, offset);
    match write_again(writer, sample.as_slice()) {
        Ok(count) => count == sample.len(),
        Err(_) => false,
    }
}

#[cfg(test)]
mod tests {
    use super::*;
    use std::fs;
    use std::test::Fail;

    const FOLDER: &str = "edge_io_samples";

    const PATH: &str = "edge_io_samples/file";

    /// Whether the next reading is there.
    fn is_read<R: rt::Clock + Files + Drop>(clock: &mut SampleClock<R>) -> bool {
        matches!(clock.now(), Reading::At(_))
    }

    /// Whether so many bytes of a sample are taken as the whole of it.
    fn takes(room: &mut [u8]) -> bool {
        let mut writer = room;
        put_sample(&mut writer, Duration::ZERO, 7)
    }

    #[test]
    fn samples_in_one_write(rt: HostRuntime) {
        assert!(rt; takes(&mut [0; 41]));
        assert!(rt; takes(&mut [0; 40]));
        assert!(rt; !takes(&mut [0; 39]));
        assert!(rt; !takes(&mut []));
    }

    /// Whether the file holds so many bytes.
    fn has_len(rt: &HostRuntime, len: usize) -> bool {
        fs::read(rt, PATH).is_ok_and(|bytes| bytes.len() == len)
    }

    /// Whether two corrections are made, and the file isn't touched before them.
    fn makes_two_corrections(rt: &HostRuntime, path: String) -> bool {
        let mut clock = SampleClock::new(rt, path);
        let is_fresh = is_read(&mut clock) && has_len(rt, 6);
        clock.step(-2_990_000_000);
        clock.slew(100_000);
        is_fresh && is_read(&mut clock) && clock.faults == 0
    }

    /// Whether a sample has this double, and the magic behind it.
    fn is_sample(sample: &[u8], double: &[u8]) -> bool {
        sample.len() == 40
            && &sample[16..24] == double
            && &sample[24..] == b"\0\0\0\0\0\0\0\0\0\0\0\0KCOS".as_slice()
    }

    /// Whether there are six bytes, and the samples of -299 and 0.01 seconds.
    fn are_two_samples(bytes: &[u8]) -> bool {
        bytes.len() == 86
            && is_sample(&bytes[6..46], &[0, 0, 0, 0, 0, 0xB0, 0x72, 0xC0])
            && is_sample(
                &bytes[46..],
                &[0x7B, 0x14, 0xAE, 0x47, 0xE1, 0x7A, 0x84, 0x3F],
            )
    }

    #[test]
    fn samples_at_the_end_of_a_file(rt: HostRuntime) -> Result<(), Fail> {
        let _ = fs::remove_dir_all(&rt, FOLDER);
        fs::create_dir(&rt, FOLDER)?;
        fs::write(&rt, PATH, "before")?;
        let path = String::from_str(rt.alloc(), PATH)?;
        assert!(rt; makes_two_corrections(&rt, path));
        let bytes = fs::read(&rt, PATH)?;
        assert!(rt; are_two_samples(bytes.as_slice()));
        fs::remove_dir_all(&rt, FOLDER)?;
        Ok(())
    }

    /// Whether a correction is made, and the reading after it is there.
    fn is_corrected<R: rt::Clock + Files + Drop>(clock: &mut SampleClock<R>) -> bool {
        clock.slew(1);
        is_read(clock)
    }

    /// Whether the first correction stops the readings for good.
    fn stops(rt: &HostRuntime, path: String) -> bool {
        let mut clock = SampleClock::new(rt, path);
        is_read(&mut clock)
            && !is_corrected(&mut clock)
            && !is_corrected(&mut clock)
            && clock.faults == 2
    }

    #[test]
    fn samples_that_cant_be_written(rt: HostRuntime) -> Result<(), Fail> {
        // A path that is missing, a folder, and a device that is full.
        for path in ["/proc/no/such", "/proc", "/dev/full"] {
            let path = String::from_str(rt.alloc(), path)?;
            assert!(rt; stops(&rt, path));
        }
        Ok(())
    }
}
