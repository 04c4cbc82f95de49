//! What stands for a file that can't be opened.
ghost use Rattle.std.specs.Prelude.{◌≡◌, ◌<◌, length};
ghost use Rattle.edge_traits.specs.Source.{Gives, TakeCounts};

use edge_traits::{Source, Take};

/// A source each read of which fails. It tells nothing.
#[derive(Drop)]
pub struct ClosedSource {
    faults: u64,
}

impl ClosedSource {
    /// No read has failed yet.
    pub fn new() -> ClosedSource
        ensures { ⟦<ClosedSource as Source>⟧.faults result ≡ 0 }
    {
        ClosedSource { faults: 0 }
    }
}

impl Source for ClosedSource {
    ghost use Rattle.std.specs.Prelude.{None};

    ghost left = { λ _. None };

    ghost faults = { λ s. s.faults };

    fn read(&mut self, buf: &mut [u8]) -> Take
        requires { 0 < length buf.old }
        ensures bytes { Gives result buf.new None None }
        ensures cause { TakeCounts result self.old.faults self.new.faults }
        ensures answer { result ≡ Take.Failed }
    {
        self.faults = self.faults.saturating_add(1);
        Take::Failed
    }
}

#[cfg(test)]
mod tests {
    use super::*;
    use std::test::Fail;

    #[test]
    fn reads_of_no_file(rt: HostRuntime) -> Result<(), Fail> {
        let mut source = ClosedSource::new();
        assert_eq!(rt; source.read(&mut [0]), Take::Failed);
        assert_eq!(rt; source.read(&mut [0; 9]), Take::Failed);
        assert_eq!(rt; source.faults, 2);
        Ok(())
    }
}
