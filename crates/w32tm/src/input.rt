//! What is read: standard input, a file, or what stands for a file that can't be opened.
ghost use Rattle.std.specs.Prelude.{◌≡◌, ◌<◌, length, true};
ghost use Rattle.edge_io.specs.Source.{Gives, TakeCounts};
ghost use Rattle.w32tm.specs.Input.{is_closed, is_standard, of_source};

use edge_io::{ClosedSource, Source, Take};

/// A source of one of three kinds. It tells what its source tells, and has that source's count of failed reads.
#[derive(Drop)]
pub(crate) enum Input<I: Source, F: Source> {
    /// Standard input.
    Standard(I),
    /// A file.
    File(F),
    /// No file: each read fails.
    Closed(ClosedSource),
}

impl<I: Source, F: Source> Source for Input<I, F> {
    ghost use Rattle.w32tm.specs.Input.{of_source};

    ghost left = { of_source I.left F.left ⟦<ClosedSource as Source>⟧.left };

    ghost faults = { of_source I.faults F.faults ⟦<ClosedSource as Source>⟧.faults };

    fn read(&mut self, buf: &mut [u8]) -> Take
        requires { 0 < length buf.old }
        ensures bytes { let left = of_source I.left F.left ⟦<ClosedSource as Source>⟧.left in
            Gives result buf.new (left self.old) (left self.new) }
        ensures cause { let faults = of_source I.faults F.faults ⟦<ClosedSource as Source>⟧.faults in
            TakeCounts result (faults self.old) (faults self.new) }
        ensures closed { is_closed self.old ≡ true → result ≡ Take.Failed }
        ensures kind { (is_closed self.new ≡ is_closed self.old)
            × (is_standard self.new ≡ is_standard self.old) }
    {
        match self {
            Input::Standard(source) => source.read(buf),
            Input::File(source) => source.read(buf),
            Input::Closed(source) => source.read(buf),
        }
    }
}

#[cfg(test)]
mod tests {
    use super::*;
    use edge_io::ScriptSource;
    use std::test::Fail;

    #[test]
    fn inputs_of_each_kind(rt: HostRuntime) -> Result<(), Fail> {
        let mut buf = [0; 3];
        let alloc = rt.alloc();
        let bytes = vec![in alloc; 7, 8]?;
        let Ok(source) = ScriptSource::new(alloc, bytes, Vec::new(alloc), vec![in alloc; 2]?, 0)
        else {
            assert!(rt; false, "it takes no memory");
            return Ok(());
        };
        let mut input: Input<ScriptSource, ScriptSource> = Input::Standard(source);
        for taken in [Take::Bytes(2), Take::Failed, Take::End] {
            assert_eq!(rt; input.read(&mut buf), taken);
        }
        assert_eq!(rt; buf, [7, 8, 0]);
        input = Input::Closed(ClosedSource::new());
        assert_eq!(rt; input.read(&mut buf), Take::Failed);
        Ok(())
    }
}
