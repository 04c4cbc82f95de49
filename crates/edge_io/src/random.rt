//! Random words of the machine.
ghost use Rattle.std.specs.Prelude.{◌≡◌, None, Some};
ghost use Rattle.std.specs.Option.{is_some};
ghost use Rattle.edge_io.specs.Held.{TakesWord};
ghost use Rattle.edge_traits.specs.Entropy.{DrawnCounts, Draws};

use edge_traits::{Drawn, Entropy};
use std::fs;
use std::io::{self, Read};
use std::rt::Files;

/// The words of a file of random bytes, or of any other reader. It tells nothing; of a reader whose bytes are known it
/// gives exactly these.
///
/// A word is the next four bytes, lowest first. A draw fails where the reader fails, and where it ends before the four
/// bytes. A read that a signal cuts short is made again, and is no fault.
#[derive(Drop)]
pub struct RandomFile<F: Read> {
    reader: Option<F>,
    faults: u64,
}

impl<F: Read> RandomFile<F> {
    /// The words of what the reader gives.
    pub fn new(reader: F) -> RandomFile<F>
        ensures held { result.reader ≡ Some reader }
        ensures told { ⟦<RandomFile<F> as Entropy>⟧.words result ≡ None }
        ensures faults { ⟦<RandomFile<F> as Entropy>⟧.faults result ≡ 0 }
    {
        RandomFile {
            reader: Some(reader),
            faults: 0,
        }
    }

    /// Words of no file: each draw fails.
    pub fn without_file() -> RandomFile<F>
        ensures held { result.reader ≡ None }
        ensures told { ⟦<RandomFile<F> as Entropy>⟧.words result ≡ None }
        ensures faults { ⟦<RandomFile<F> as Entropy>⟧.faults result ≡ 0 }
    {
        RandomFile {
            reader: None,
            faults: 0,
        }
    }
}

impl<F: Read> Entropy for RandomFile<F> {
    ghost use Rattle.std.specs.Prelude.{None};

    ghost words = { λ _. None };

    ghost faults = { λ e. e.faults };

    fn word(&mut self) -> Drawn
        ensures gives { Draws result None None }
        ensures cause { DrawnCounts result self.old.faults self.new.faults }
        // Without a file there is no word, and none is opened later.
        ensures content { TakesWord result F.remaining self.old.reader self.new.reader }
        ensures same { is_some self.new.reader ≡ is_some self.old.reader }
    {
        let mut bytes = [0; 4];
        if let Some(reader) = &mut self.reader
            && reader.read_exact(&mut bytes).is_ok()
        {
            return Drawn::Word(u32::from_le_bytes(bytes));
        }
        self.faults = self.faults.saturating_add(1);
        Drawn::Failed
    }
}

/// The machine's random words, of `/dev/urandom`. It fails where that can't be opened.
pub fn random_file<R: Files>(files: &R) -> io::Result<RandomFile<R::File>> {
    Ok(RandomFile::new(fs::open(files, "/dev/urandom")?))
}

#[cfg(test)]
mod tests {
    use super::*;

    /// Whether the words are drawn one after the other.
    fn draws<E: Entropy>(words: &mut E, wanted: &[Drawn]) -> bool {
        for place in 0..wanted.len() {
            if words.word() != wanted[place] {
                return false;
            }
        }
        true
    }

    /// The last draw is of one byte.
    const DRAWN: &[Drawn] = &[
        Drawn::Word(0x0403_0201),
        Drawn::Word(0),
        Drawn::Word(0x8000_00FF),
        Drawn::Failed,
    ];

    #[test]
    fn words_of_four_bytes(rt: HostRuntime) {
        let mut entropy = RandomFile::new([1, 2, 3, 4, 0, 0, 0, 0, 0xFF, 0, 0, 0x80, 9].as_slice());
        let is_drawn = draws(&mut entropy, DRAWN);
        assert_eq!(rt; (is_drawn, entropy.faults), (true, 1));
        let mut none = RandomFile::<&[u8]>::without_file();
        let is_drawn = draws(&mut none, &[Drawn::Failed]);
        assert_eq!(rt; (is_drawn, none.faults), (true, 1));
    }
}
